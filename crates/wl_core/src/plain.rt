//! The lock machine over lists.

ghost use Rattle.std.specs.Prelude.{◌≡◌, ◌+◌, ◌≤◌, ◌<◌, [], IfOk, OnErr, Option, None, Some, true};
ghost use Rattle.wl_machine.specs.Refusals.{refusal};
ghost use Rattle.wl_machine.specs.Step.{Gives};

use crate::copies::{copy_rows, copy_values};
use crate::ends::{
    LocksToEnd, RequestsToEnd, end_locks, end_requests, has_lock, has_untaken, least_untaken,
    nth_untaken, take_lock,
};
use crate::limits::unless_refused;
use crate::lock_core::LockCore;
use crate::names::add_name;
use crate::owners::{reason_of, remove_agent, remove_signals, set_active_in, set_reason};
use crate::processing::process_queues;
use crate::queues::{enqueue, is_unavailable};
use crate::room::{make_room, push_in_room};
use crate::snapshots::make_snapshot;
use std::alloc::Global;
use std::marker::Model;
use wl_machine::{AgentRow, Command, HeldRow, PendingRow, Reply, SignalRow};
use wl_types::{
    AbortAnswer, Ask, Change, Kind, Memory, Name, Numbers, Phase, Reason, Refusal, ReleaseAnswer,
    Snapshot, TakeAnswer,
};

mod draft;
mod equality;
mod lists;
mod refusals;

pub use draft::PlainDraft;

/// A core that keeps the machine's lists as they are and scans them: the plain program of the definitions, with
/// which faster cores are compared. It has room for what the end of each live request needs.
#[derive(Drop)]
pub struct PlainCore {
    agents: Vec<AgentRow>,
    signals: Vec<SignalRow>,
    names: Vec<Name>,
    held: Vec<HeldRow>,
    pending: Vec<PendingRow>,
    next: Numbers,
    changes: Vec<Change>,
    alloc: Global,
}

impl Model for PlainCore {
    ghost use Rattle.std.specs.Prelude.{◌+◌, ◌≤◌, vec_len, vec_capacity};
    ghost use Rattle.wl_machine.specs.State.{Content};

    ghost Value = { Content };

    ghost view = { λ c. record {
      state = record {
        agents = c.agents.items;
        signals = c.signals.items;
        names = c.names.items;
        held = c.held.items;
        pending = c.pending.items;
        next = c.next;
      };
      recent = c.changes.items;
    } };

    ghost invariant = { λ c. (vec_len c.held + vec_len c.pending ≤ vec_capacity c.held)
        × (vec_len c.held + vec_len c.pending ≤ vec_capacity c.changes) };
}

impl PlainCore {
    /// A request that nothing refuses. All that can fail comes first.
    fn admit(&mut self, agent: u64, ask: &Ask) -> Result<u64, Memory>
        requires accepted { refusal self.old.state (Command.Request agent ask.now) ≡ None }
        requires no_changes { self.old.recent ≡ [] }
        ensures admitted { IfOk result (λ id. Gives self.old.state (Command.Request agent ask.now) self.new.state
            (Reply.Request id) self.new.recent) }
        ensures unchanged { OnErr result (self.new ≡ self.old) }
    {
        let number = self.next.request;
        let name = match Name::of(self.alloc, ask.name.as_str()) {
            Ok(name) => name,
            Err(_) => return Err(Memory),
        };
        let row = PendingRow {
            number,
            agent,
            name,
            mode: ask.mode,
            signal: ask.signal,
        };
        make_room(&mut self.held, &mut self.pending, &mut self.changes)?;
        if is_unavailable(&self.held, &self.pending, &row, ask) {
            let phase = Phase::Unavailable;
            push_in_room(&mut self.changes, Change { id: number, phase });
            self.next.request = number + 1;
            return Ok(number);
        }
        add_name(self.alloc, &mut self.names, &row.name)?;
        enqueue(
            &mut self.held,
            &mut self.pending,
            &mut self.changes,
            row,
            ask.steal,
        );
        process_queues(
            &mut self.held,
            &mut self.pending,
            &mut self.changes,
            &mut self.names,
        );
        self.next.request = number + 1;
        Ok(number)
    }
}

impl LockCore for PlainCore {
    type Seed = ();

    ghost state = { λ c. c.state };

    ghost recent = { λ c. c.recent };

    // It keeps no journal.
    ghost entries = { λ c. None };

    ghost no_entries = { None };

    fn make(alloc: Global, _seed: (), next: Numbers) -> PlainCore {
        PlainCore {
            agents: Vec::new(alloc),
            signals: Vec::new(alloc),
            names: Vec::new(alloc),
            held: Vec::new(alloc),
            pending: Vec::new(alloc),
            next,
            changes: Vec::new(alloc),
            alloc,
        }
    }

    fn open(&mut self, kind: Kind) -> Result<u64, Refusal> {
        self.changes.clear();
        if let Some(refusal) = self.open_refusal() {
            return Err(refusal);
        }
        let number = self.next.agent;
        let row = AgentRow {
            number,
            kind,
            active: true,
        };
        if self.agents.push(row).is_err() {
            return Err(Refusal::Memory);
        }
        self.next.agent = number + 1;
        Ok(number)
    }

    fn set_active(&mut self, agent: u64, active: bool) -> Result<(), Refusal> {
        self.changes.clear();
        if let Some(refusal) = self.set_refusal(agent) {
            return Err(refusal);
        }
        set_active_in(&mut self.agents, agent, active);
        Ok(())
    }

    fn new_signal(&mut self, agent: u64) -> Result<u64, Refusal> {
        self.changes.clear();
        if let Some(refusal) = self.signal_refusal(agent) {
            return Err(refusal);
        }
        let number = self.next.signal;
        let row = SignalRow {
            agent,
            number,
            reason: None,
        };
        if self.signals.push(row).is_err() {
            return Err(Refusal::Memory);
        }
        self.next.signal = number + 1;
        Ok(number)
    }

    fn request(&mut self, agent: u64, ask: &Ask) -> Result<u64, Refusal> {
        self.changes.clear();
        if let Some(refusal) = self.request_refusal(agent, ask) {
            return Err(refusal);
        }
        match self.admit(agent, ask) {
            Ok(number) => Ok(number),
            Err(_) => Err(Refusal::Memory),
        }
    }

    fn take(&mut self, id: u64) -> TakeAnswer {
        self.changes.clear();
        if !has_untaken(&self.held, id) {
            return TakeAnswer::NotGranted;
        }
        take_lock(&mut self.held, id);
        TakeAnswer::Taken
    }

    fn release(&mut self, agent: u64, id: u64) -> ReleaseAnswer {
        self.changes.clear();
        if !has_lock(&self.held, agent, id) {
            return ReleaseAnswer::NotHeld;
        }
        let lock = LocksToEnd::Number(agent, id);
        end_locks(&mut self.held, &mut self.changes, &lock, Phase::Released);
        process_queues(
            &mut self.held,
            &mut self.pending,
            &mut self.changes,
            &mut self.names,
        );
        ReleaseAnswer::Released
    }

    fn abort(&mut self, agent: u64, signal: u64, reason: Reason) -> Result<AbortAnswer, Refusal> {
        self.changes.clear();
        if let Some(refusal) = self.abort_refusal(agent, signal) {
            return Err(refusal);
        }
        if reason_of(&self.signals, agent, signal).is_some() {
            return Ok(AbortAnswer::AlreadyAborted);
        }
        set_reason(&mut self.signals, agent, signal, reason);
        let phase = Phase::Aborted(reason);
        let requests = RequestsToEnd::Signal(agent, signal);
        end_requests(&mut self.pending, &mut self.changes, &requests, phase);
        let locks = LocksToEnd::Signal(agent, signal);
        end_locks(&mut self.held, &mut self.changes, &locks, phase);
        process_queues(
            &mut self.held,
            &mut self.pending,
            &mut self.changes,
            &mut self.names,
        );
        Ok(AbortAnswer::Done)
    }

    fn terminate(&mut self, agent: u64) -> Result<(), Refusal> {
        self.changes.clear();
        if let Some(refusal) = self.terminate_refusal(agent) {
            return Err(refusal);
        }
        let requests = RequestsToEnd::Agent(agent);
        let phase = Phase::Aborted(Reason::AbortError);
        end_requests(&mut self.pending, &mut self.changes, &requests, phase);
        let locks = LocksToEnd::Agent(agent);
        end_locks(&mut self.held, &mut self.changes, &locks, Phase::Released);
        remove_signals(&mut self.signals, agent);
        remove_agent(&mut self.agents, agent);
        process_queues(
            &mut self.held,
            &mut self.pending,
            &mut self.changes,
            &mut self.names,
        );
        Ok(())
    }

    fn changes(&self) -> &[Change] {
        self.changes.as_slice()
    }

    fn snapshot(&self, agent: u64) -> Result<Snapshot, Refusal> {
        if let Some(refusal) = self.query_refusal(agent) {
            return Err(refusal);
        }
        match make_snapshot(self.alloc, &self.held, &self.pending, &self.names) {
            Ok(snapshot) => Ok(snapshot),
            Err(_) => Err(Refusal::Memory),
        }
    }

    fn may_open(&self) -> Result<(), Refusal> {
        unless_refused(self.open_refusal())
    }

    fn may_set(&self, agent: u64) -> Result<(), Refusal> {
        unless_refused(self.set_refusal(agent))
    }

    fn may_signal(&self, agent: u64) -> Result<(), Refusal> {
        unless_refused(self.signal_refusal(agent))
    }

    fn may_request(&self, agent: u64, ask: &Ask) -> Result<(), Refusal> {
        unless_refused(self.request_refusal(agent, ask))
    }

    fn untaken(&self, agent: u64, signal: u64, i: u64) -> Option<u64> {
        nth_untaken(&self.held, agent, signal, i)
    }

    fn untaken_above(&self, agent: u64, signal: u64, after: u64) -> Option<u64> {
        least_untaken(&self.held, agent, signal, after)
    }

    fn copy_plain(&self) -> Result<PlainCore, Memory> {
        let alloc = self.alloc;
        let live = self.held.len() + self.pending.len();
        Ok(PlainCore {
            agents: copy_values(alloc, &self.agents)?,
            signals: copy_values(alloc, &self.signals)?,
            names: copy_rows(alloc, &self.names, self.names.len())?,
            held: copy_rows(alloc, &self.held, live)?,
            pending: copy_rows(alloc, &self.pending, self.pending.len())?,
            next: self.next,
            changes: Vec::with_capacity(alloc, live)?,
            alloc,
        })
    }

    // The core that others are compared with is plain in this too: it lets the room go.
    fn copy_plain_in(&self, _room: PlainCore) -> Result<PlainCore, Memory> {
        self.copy_plain()
    }
}
