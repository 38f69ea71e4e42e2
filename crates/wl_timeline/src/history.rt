//! What became of each request of a script, at which line.

use crate::manager::Manager;
use crate::sayings::{Fault, Said};
use std::alloc::Global;
use std::collections::HashMap;
use std::hash::RandomState;
use wl_codec::{Body, Line, Message, Scratch, read_line_with};
use wl_core::Command;
use wl_origin::{ManagerFault, ManagerKey, manager_of_text};
use wl_types::{Kind, Memory, Text};

/// Where a label is.
#[derive(Clone, Copy, Drop)]
enum Seat {
    Unopened,
    /// At an opaque origin, which has no manager.
    Opaque,
    Agent {
        /// The place of its manager among the managers.
        manager: usize,
        agent: u64,
    },
}

/// From the line at which a label opened to the line at which it closed, if it has.
#[derive(Clone, Copy, Drop)]
pub(crate) struct Stay {
    pub from: u64,
    pub to: Option<u64>,
    /// The manager's place and the number of the agent; none at an opaque origin.
    pub client: Option<(usize, u64)>,
}

/// A label, where it was, and its lines that were answered by an error.
#[derive(Drop)]
pub(crate) struct Lane {
    pub label: String,
    pub stays: Vec<Stay>,
    pub faults: Vec<Fault>,
    seat: Seat,
}

/// The script so far. Lines are numbered from 1.
#[derive(Drop)]
pub(crate) struct History {
    pub lines: u64,
    /// The labels, in the order in which they first spoke.
    pub lanes: Vec<Lane>,
    /// The managers, in the order in which they were first opened.
    pub managers: Vec<Manager>,
    /// The lines that are no messages.
    pub unread: Vec<Fault>,
    labels: HashMap<String, usize>,
    keys: HashMap<ManagerKey, usize>,
    scratch: Scratch,
    seed: RandomState,
    alloc: Global,
}

impl History {
    pub(crate) fn new(alloc: Global, seed: RandomState) -> History {
        History {
            lines: 0,
            lanes: Vec::new(alloc),
            managers: Vec::new(alloc),
            unread: Vec::new(alloc),
            labels: HashMap::new(alloc),
            keys: HashMap::new(alloc),
            scratch: Scratch::new(alloc),
            seed,
            alloc,
        }
    }

    /// Takes one more line, and the reply that it got.
    pub(crate) fn follow(&mut self, line: &[u8], reply: &str) -> Result<(), Memory> {
        self.lines = self.lines.saturating_add(1);
        let said = Said::of(self.alloc, self.lines, reply)?;
        match read_line_with(self.alloc, line, &mut self.scratch)? {
            Line::Bad(_, _) => self.leave_unread(said),
            Line::Good(label, message) => {
                let Message { id: _, body } = message;
                let lane = self.lane_of(label.as_str())?;
                self.take(lane, body, said)
            }
        }
    }

    /// A line that is no message says nothing but its error.
    fn leave_unread(&mut self, said: Said) -> Result<(), Memory> {
        let Said {
            is_ok: _,
            client: _,
            notices: _,
            fault,
        } = said;
        keep(&mut self.unread, fault)
    }

    /// The place of a label's lane, which is made where it has none.
    fn lane_of(&mut self, label: &str) -> Result<usize, Memory> {
        if let Some(place) = self.labels.get(label) {
            return Ok(*place);
        }
        let place = self.lanes.len();
        self.lanes.push(Lane {
            label: String::from_str(self.alloc, label)?,
            stays: Vec::new(self.alloc),
            faults: Vec::new(self.alloc),
            seat: Seat::Unopened,
        })?;
        let label = String::from_str(self.alloc, label)?;
        self.labels.insert(label, place)?;
        Ok(place)
    }

    /// Takes a message of a label.
    fn take(&mut self, lane: usize, body: Body, said: Said) -> Result<(), Memory> {
        let Said {
            is_ok,
            client,
            notices,
            fault,
        } = said;
        let seat = match self.lanes.get(lane) {
            Some(found) => found.seat,
            None => return Ok(()),
        };
        self.blame(lane, fault)?;
        match seat {
            Seat::Unopened => {
                if is_ok {
                    self.open(lane, body, client)?;
                }
            }
            Seat::Opaque => {
                if matches!(body, Body::Close) {
                    self.close(lane);
                }
            }
            Seat::Agent { manager, agent } => {
                let is_close = matches!(body, Body::Close);
                if is_ok {
                    self.act(lane, manager, agent, body)?;
                }
                self.tell(manager, &notices)?;
                if is_close {
                    self.close(lane);
                }
            }
        }
        Ok(())
    }

    /// Keeps an error that a label's line was answered by.
    fn blame(&mut self, lane: usize, fault: Option<Fault>) -> Result<(), Memory> {
        match self.lanes.get_mut(lane) {
            Some(lane) => keep(&mut lane.faults, fault),
            None => Ok(()),
        }
    }

    /// The label becomes an agent, or one of an opaque origin.
    fn open(&mut self, lane: usize, body: Body, client: Option<u64>) -> Result<(), Memory> {
        let Body::Enter { url, kind, bucket } = body else {
            return Ok(());
        };
        let manager = match client {
            Some(_) => self.open_agent(url.as_str(), kind, bucket)?,
            None => None,
        };
        let client = manager.zip(client);
        let line = self.lines;
        if let Some(lane) = self.lanes.get_mut(lane) {
            lane.seat = match client {
                Some((manager, agent)) => Seat::Agent { manager, agent },
                None => Seat::Opaque,
            };
            lane.stays.push(Stay {
                from: line,
                to: None,
                client,
            })?;
        }
        Ok(())
    }

    /// An agent opens at a manager, whose place is answered.
    fn open_agent(&mut self, url: &str, kind: Kind, bucket: Text) -> Result<Option<usize>, Memory> {
        let key = match manager_of_text(self.alloc, url, bucket) {
            Ok(Some(key)) => key,
            // The reply had no number then, so that this isn't asked.
            Ok(None) | Err(ManagerFault::BadUrl | ManagerFault::BadBucket) => return Ok(None),
            Err(ManagerFault::Memory) => return Err(Memory),
        };
        let place = self.manager_of(key)?;
        let line = self.lines;
        if let Some(manager) = self.managers.get_mut(place) {
            manager.obey(self.alloc, 0, line, &Command::Enter(kind))?;
        }
        Ok(Some(place))
    }

    /// The place of a key's manager, which is made where there is none.
    fn manager_of(&mut self, key: ManagerKey) -> Result<usize, Memory> {
        if let Some(place) = self.keys.get(&key) {
            return Ok(*place);
        }
        let place = self.managers.len();
        self.managers
            .push(Manager::new(self.alloc, self.seed, key.copy(self.alloc)?))?;
        self.keys.insert(key, place)?;
        Ok(place)
    }

    /// An agent's operation, which was accepted.
    fn act(&mut self, lane: usize, manager: usize, agent: u64, body: Body) -> Result<(), Memory> {
        let line = self.lines;
        if let Some(command) = command_of(agent, body) {
            if let Some(manager) = self.managers.get_mut(manager) {
                manager.obey(self.alloc, lane, line, &command)?;
            }
        }
        Ok(())
    }

    /// An agent is told of its requests.
    fn tell(&mut self, manager: usize, notices: &[(u64, bool)]) -> Result<(), Memory> {
        let line = self.lines;
        if let Some(manager) = self.managers.get_mut(manager) {
            for notice in notices {
                let (request, is_grant) = *notice;
                manager.tell(self.alloc, line, request, is_grant)?;
            }
        }
        Ok(())
    }

    fn close(&mut self, lane: usize) {
        let line = self.lines;
        if let Some(lane) = self.lanes.get_mut(lane) {
            lane.seat = Seat::Unopened;
            if let Some(stay) = lane.stays.last_mut() {
                stay.to = Some(line);
            }
        }
    }
}

/// Keeps an error, if there is one.
fn keep(faults: &mut Vec<Fault>, fault: Option<Fault>) -> Result<(), Memory> {
    if let Some(fault) = fault {
        faults.push(fault)?;
    }
    Ok(())
}

/// The command of an agent's operation, if it changes anything.
fn command_of(agent: u64, body: Body) -> Option<Command> {
    match body {
        Body::Signal => Some(Command::NewSignal(agent)),
        Body::Request(ask) => Some(Command::Request(agent, ask)),
        Body::Release(request) => Some(Command::Release(agent, request)),
        Body::Abort(signal, reason) => Some(Command::Abort(agent, signal, reason)),
        Body::Active(active) => Some(Command::SetActive(agent, active)),
        Body::Close => Some(Command::Terminate(agent)),
        Body::Enter { .. } | Body::Query | Body::Poll => None,
    }
}
