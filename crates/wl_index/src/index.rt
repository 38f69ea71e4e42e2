//! The machine over indexes.
ghost use Rattle.std.specs.Prelude.{◌≡◌, ℕ, ◌+◌, ◌<◌, ◌&&◌, not, [], ◌∷◌, ◌++◌, IfOk, OnOk, OnErr, Option, None, true};
ghost use Rattle.std.specs.Prelude.{false};
ghost use Rattle.std.specs.List.{AllByRecursion};
ghost use Rattle.wl_machine.specs.Refusals.{refusal};
ghost use Rattle.wl_machine.specs.Step.{Gives, available, new_request, with_name};
ghost use Rattle.wl_index.specs.inner.Core.{machine_state};
ghost use Rattle.wl_index.specs.inner.Lists.{IsGrouped};
ghost use Rattle.wl_index.specs.inner.Locks.{request_for};
ghost use Rattle.wl_index.specs.inner.Rows.{tags_of};

use crate::agents::Agents;
use crate::copies::{plain_copy, plain_copy_in};
use crate::ending::{Ending, end_owned};
use crate::locks::Locks;
use crate::request::{Owner, Place};
use crate::snapshots::make_snapshot;
use std::alloc::Global;
use std::hash::RandomState;
use std::marker::Model;
use wl_core::{LockCore, PlainCore};
use wl_machine::{Command, Reply};
use wl_types::{
    AbortAnswer, Ask, Change, Kind, Memory, Numbers, Phase, Reason, Refusal, ReleaseAnswer,
    Snapshot, TakeAnswer,
};

mod refusals;

/// A core whose events cost what they change: O(log n) for each request, lock or name. It has room for what the end
/// of each live request needs.
#[derive(Drop)]
pub struct IndexCore {
    agents: Agents,
    locks: Locks,
    // Where what ends stands, while it ends.
    ending: Vec<Place>,
    alloc: Global,
}

impl Model for IndexCore {
    ghost use Rattle.std.specs.Prelude.{vec_capacity, ◌≡◌, []};
    ghost use Rattle.wl_machine.specs.State.{Content};
    ghost use Rattle.wl_index.specs.inner.Core.{IsCore, machine_state};

    ghost Value = { Content };

    ghost view = { λ c. record { state = machine_state c.agents.rows c.locks; recent = c.locks.changes } };

    ghost invariant = { λ c. IsCore c.agents c.locks (vec_capacity c.ending) × (c.ending.items ≡ []) };
}

impl IndexCore {
    /// Whether a request is to be granted at once or not at all, and can't be granted.
    fn is_unavailable(&self, ask: &Ask) -> bool
        ensures { (agent : ℕ) → result ≡ (ask.now.if_available
            && not (available self.now.state (new_request self.now.state agent ask.now))) }
    {
        ask.if_available && !self.locks.is_available(ask.name.as_str(), ask.mode)
    }

    /// A request without `steal` that nothing refuses.
    fn admit(&mut self, agent: u64, ask: &Ask) -> Result<u64, Memory>
        requires accepted { refusal self.old.state (Command.Request agent ask.now) ≡ None }
        requires no_changes { self.old.recent ≡ [] }
        requires plain { ask.now.steal ≡ false }
        ensures admitted { IfOk result (λ id. Gives self.old.state (Command.Request agent ask.now) self.new.state
            (Reply.Request id) self.new.recent) }
        ensures unchanged { OnErr result (self.new ≡ self.old) }
    {
        if self.is_unavailable(ask) {
            return self.locks.refuse();
        }
        self.ending.reserve(self.locks.requests().len() + 1)?;
        let number = enqueue(&mut self.agents, &mut self.locks, agent, ask)?;
        self.locks.process();
        Ok(number)
    }

    /// A request with `steal` that nothing refuses.
    fn steal(&mut self, agent: u64, ask: &Ask) -> Result<u64, Memory>
        requires accepted { refusal self.old.state (Command.Request agent ask.now) ≡ None }
        requires no_changes { self.old.recent ≡ [] }
        requires steal { ask.now.steal ≡ true }
        ensures admitted { IfOk result (λ id. Gives self.old.state (Command.Request agent ask.now) self.new.state
            (Reply.Request id) self.new.recent) }
        ensures unchanged { OnErr result (self.new ≡ self.old) }
    {
        self.ending.reserve(self.locks.requests().len() + 1)?;
        let number = enqueue(&mut self.agents, &mut self.locks, agent, ask)?;
        self.locks.oust(ask.name.as_str());
        self.locks.seize(ask.name.as_str(), number);
        self.locks.process();
        Ok(number)
    }
}

/// A request that nothing refuses comes onto the lists of its agent, and to the end of its queue.
fn enqueue(agents: &mut Agents, locks: &mut Locks, agent: u64, ask: &Ask) -> Result<u64, Memory>
    requires accepted { refusal (machine_state agents.old.rows locks.old) (Command.Request agent ask.now) ≡ None }
    requires grouped { IsGrouped (tags_of locks.old.entries) agents.old.members }
    ensures number { IfOk result (λ n. n ≡ locks.old.next) }
    ensures enqueued { OnOk result (locks.new ≡ record locks.old {
      entries = locks.old.entries
          ++ (locks.old.next, request_for agent ask.now) ∷ [];
      next = locks.old.next + 1;
      names = with_name ask.now.name locks.old.names;
    }) }
    ensures below { OnOk result (AllByRecursion (λ e. e.0 < locks.old.next) locks.old.entries) }
    ensures rows { agents.new.rows ≡ agents.old.rows }
    ensures grouped { IsGrouped (tags_of locks.new.entries) agents.new.members }
    ensures err { OnErr result (locks.new ≡ locks.old) }
{
    let number = locks.requests().next();
    agents.enlist(locks.requests(), agent, ask.signal, number)?;
    locks.enqueue(agent, ask)
}

impl LockCore for IndexCore {
    type Seed = RandomState;

    ghost state = { λ c. c.state };

    ghost recent = { λ c. c.recent };

    // It keeps no journal.
    ghost entries = { λ c. None };

    ghost no_entries = { None };

    fn make(alloc: Global, seed: RandomState, next: Numbers) -> IndexCore {
        IndexCore {
            agents: Agents::new(alloc, next.agent, next.signal),
            locks: Locks::new(alloc, seed, next.request),
            ending: Vec::new(alloc),
            alloc,
        }
    }

    fn open(&mut self, kind: Kind) -> Result<u64, Refusal> {
        self.locks.begin();
        if let Some(refusal) = self.open_refusal() {
            return Err(refusal);
        }
        match self.agents.open(kind) {
            Ok(number) => Ok(number),
            Err(_) => Err(Refusal::Memory),
        }
    }

    fn request(&mut self, agent: u64, ask: &Ask) -> Result<u64, Refusal> {
        self.locks.begin();
        if let Some(refusal) = self.request_refusal(agent, ask) {
            return Err(refusal);
        }
        let admitted = if ask.steal {
            self.steal(agent, ask)
        } else {
            self.admit(agent, ask)
        };
        match admitted {
            Ok(number) => Ok(number),
            Err(_) => Err(Refusal::Memory),
        }
    }

    fn take(&mut self, id: u64) -> TakeAnswer {
        self.locks.begin();
        if !self.locks.take(id) {
            return TakeAnswer::NotGranted;
        }
        TakeAnswer::Taken
    }

    fn release(&mut self, agent: u64, id: u64) -> ReleaseAnswer {
        self.locks.begin();
        if !self.locks.has_lock(agent, id) {
            return ReleaseAnswer::NotHeld;
        }
        self.locks.end(id, Phase::Released);
        self.locks.process();
        ReleaseAnswer::Released
    }

    fn set_active(&mut self, agent: u64, active: bool) -> Result<(), Refusal> {
        self.locks.begin();
        if let Some(refusal) = self.set_refusal(agent) {
            return Err(refusal);
        }
        self.agents.set_active(agent, active);
        Ok(())
    }

    fn new_signal(&mut self, agent: u64) -> Result<u64, Refusal> {
        self.locks.begin();
        if let Some(refusal) = self.signal_refusal(agent) {
            return Err(refusal);
        }
        match self.agents.make_signal(agent) {
            Ok(number) => Ok(number),
            Err(_) => Err(Refusal::Memory),
        }
    }

    fn abort(&mut self, agent: u64, signal: u64, reason: Reason) -> Result<AbortAnswer, Refusal> {
        self.locks.begin();
        if let Some(refusal) = self.abort_refusal(agent, signal) {
            return Err(refusal);
        }
        if self.agents.reason(agent, signal).is_some() {
            return Ok(AbortAnswer::AlreadyAborted);
        }
        let phase = Phase::Aborted(reason);
        let ending = Ending {
            owner: Owner::Signal(agent, signal),
            waiting: phase,
            held: phase,
        };
        let numbers = self.agents.numbers(ending.owner);
        end_owned(&mut self.locks, numbers, ending, &mut self.ending);
        self.agents
            .abort(self.locks.requests(), agent, signal, reason);
        self.locks.process();
        Ok(AbortAnswer::Done)
    }

    fn terminate(&mut self, agent: u64) -> Result<(), Refusal> {
        self.locks.begin();
        if let Some(refusal) = self.terminate_refusal(agent) {
            return Err(refusal);
        }
        let ending = Ending {
            owner: Owner::Agent(agent),
            waiting: Phase::Aborted(Reason::AbortError),
            held: Phase::Released,
        };
        let numbers = self.agents.numbers(ending.owner);
        end_owned(&mut self.locks, numbers, ending, &mut self.ending);
        self.agents.close(agent);
        self.locks.process();
        Ok(())
    }

    fn changes(&self) -> &[Change] {
        self.locks.changes()
    }

    fn snapshot(&self, agent: u64) -> Result<Snapshot, Refusal> {
        if let Some(refusal) = self.query_refusal(agent) {
            return Err(refusal);
        }
        match make_snapshot(self.alloc, &self.locks) {
            Ok(snapshot) => Ok(snapshot),
            Err(_) => Err(Refusal::Memory),
        }
    }

    fn may_open(&self) -> Result<(), Refusal> {
        refusals::unless_refused(self.open_refusal())
    }

    fn may_set(&self, agent: u64) -> Result<(), Refusal> {
        refusals::unless_refused(self.set_refusal(agent))
    }

    fn may_signal(&self, agent: u64) -> Result<(), Refusal> {
        refusals::unless_refused(self.signal_refusal(agent))
    }

    fn may_request(&self, agent: u64, ask: &Ask) -> Result<(), Refusal> {
        refusals::unless_refused(self.request_refusal(agent, ask))
    }

    fn untaken(&self, agent: u64, signal: u64, i: u64) -> Option<u64> {
        let owner = Owner::Signal(agent, signal);
        self.locks
            .requests()
            .nth_untaken(self.agents.numbers(owner), owner, i)
    }

    fn untaken_above(&self, agent: u64, signal: u64, after: u64) -> Option<u64> {
        let owner = Owner::Signal(agent, signal);
        self.locks
            .requests()
            .least_untaken(self.agents.numbers(owner), owner, after)
    }

    fn copy_plain(&self) -> Result<PlainCore, Memory> {
        plain_copy(self.alloc, &self.agents, &self.locks)
    }

    fn copy_plain_in(&self, room: PlainCore) -> Result<PlainCore, Memory> {
        plain_copy_in(self.alloc, room, &self.agents, &self.locks)
    }
}
