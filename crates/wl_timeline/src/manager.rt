//! A manager of a script, and its requests.

use std::alloc::Global;
use std::hash::RandomState;
use wl_core::{Command, LockCore, Reply, apply};
use wl_index::IndexCore;
use wl_origin::ManagerKey;
use wl_types::{Ask, Change, Memory, Mode, Numbers, Phase, Refusal};

/// A phase, and the line at which the request came to it.
#[derive(Clone, Copy, Drop)]
pub(crate) struct Step {
    pub line: u64,
    pub phase: Phase,
    /// Whether it came to it since its agent closed.
    pub by_close: bool,
}

/// A request, and what became of it.
#[derive(Drop)]
pub(crate) struct Request {
    /// The place of the lane of the label that asked.
    pub lane: usize,
    pub name: String,
    pub mode: Mode,
    /// What was asked for beside name and mode.
    pub option: &'static str,
    /// The phases, from `Pending` on.
    pub steps: Vec<Step>,
    /// What its agent was told, and at which line.
    pub reports: Vec<Step>,
}

impl Request {
    fn new(alloc: Global, lane: usize, line: u64, ask: &Ask) -> Result<Request, Memory> {
        let mut steps = Vec::new(alloc);
        steps.push(Step {
            line,
            phase: Phase::Pending,
            by_close: false,
        })?;
        Ok(Request {
            lane,
            name: String::from_str(alloc, ask.name.as_str())?,
            mode: ask.mode,
            option: option_of(ask),
            steps,
            reports: Vec::new(alloc),
        })
    }
}

/// What is asked for beside name and mode. `steal` and `ifAvailable` exclude each other.
fn option_of(ask: &Ask) -> &'static str {
    if ask.steal {
        " steal"
    } else if ask.if_available {
        " ifAvailable"
    } else {
        ""
    }
}

/// A manager: a core that does what the script's own does, and its requests in the order of their numbers.
#[derive(Drop)]
pub(crate) struct Manager {
    pub key: ManagerKey,
    /// The request of number n is at n - 1.
    pub requests: Vec<Request>,
    core: IndexCore,
}

impl Manager {
    pub(crate) fn new(alloc: Global, seed: RandomState, key: ManagerKey) -> Manager {
        let next = Numbers {
            agent: 1,
            request: 1,
            signal: 1,
        };
        Manager {
            key,
            requests: Vec::new(alloc),
            core: IndexCore::make(alloc, seed, next),
        }
    }

    /// Does a command of a label, and notes what it changed.
    pub(crate) fn obey(
        &mut self,
        alloc: Global,
        lane: usize,
        line: u64,
        command: &Command,
    ) -> Result<(), Memory> {
        if let Reply::Refused(Refusal::Memory) = apply(&mut self.core, command) {
            return Err(Memory);
        }
        if let Command::Request(_, ask) = command {
            self.requests.push(Request::new(alloc, lane, line, ask)?)?;
        }
        let by_close = matches!(command, Command::Terminate(_));
        note_all(&mut self.requests, self.core.changes(), line, by_close)
    }

    /// Notes that an agent was told of its request. A grant that is told is a lock that is taken.
    pub(crate) fn tell(
        &mut self,
        alloc: Global,
        line: u64,
        number: u64,
        is_grant: bool,
    ) -> Result<(), Memory> {
        if is_grant {
            self.obey(alloc, 0, line, &Command::Take(number))?;
            let taken = Change {
                id: number,
                phase: Phase::Taken,
            };
            note_all(&mut self.requests, &[taken], line, false)?;
        }
        if let Some(request) = find(&mut self.requests, number) {
            if let Some(last) = request.steps.last().copied() {
                request.reports.push(Step { line, ..last })?;
            }
        }
        Ok(())
    }
}

/// The request of this number.
fn find(requests: &mut [Request], number: u64) -> Option<&mut Request> {
    let place = number.checked_sub(1)?;
    requests.get_mut(usize::try_from(place).ok()?)
}

/// Notes the changes of a command at the requests that they name.
fn note_all(
    requests: &mut [Request],
    changes: &[Change],
    line: u64,
    by_close: bool,
) -> Result<(), Memory> {
    for change in changes {
        if let Some(request) = find(requests, change.id) {
            request.steps.push(Step {
                line,
                phase: change.phase,
                by_close,
            })?;
        }
    }
    Ok(())
}
