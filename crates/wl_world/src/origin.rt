//! The manager of one bucket of an origin.

ghost use Rattle.std.specs.Prelude.{◌≡◌, IfOk, OnOk, Some, map};
ghost use Rattle.std.specs.List.{fold};
ghost use Rattle.wl_machine.specs.declared.command.Command.TheVariants as command;
ghost use Rattle.wl_session.specs.LastReported.{IsByNumber};
ghost use Rattle.wl_world.specs.Entries.{command_entries, take_entries, take_of};
ghost use Rattle.wl_world.specs.Journals.{with_more};
ghost use Rattle.wl_world.specs.Origins.{act, admitted, as_taken, command_of, is_granted};
ghost use Rattle.wl_world.specs.Origins.{take_observed, origin_after_collect};
ghost use Rattle.wl_world.specs.Origins.{unused};
ghost use Rattle.wl_world.specs.Requests.{changed_requests};
ghost use Rattle.wl_world.specs.inner.Views.{act_result_of};

use crate::requests::Requests;
use crate::steps::{accept, operate, refusal_outcome};
use crate::supplies::Supplies;
use std::alloc::Global;
use std::marker::Model;
use wl_codec::{Body, Outcome};
use wl_core::LockCore;
use wl_types::{Kind, Memory, Numbers, Phase};

/// A core, and the requests whose ends were not reported. After a want of memory it promises nothing more.
#[derive(Drop)]
pub(crate) struct Origin<C: LockCore> {
    core: C,
    requests: Requests,
}

impl<C: LockCore> Model for Origin<C> {
    ghost use Rattle.wl_world.specs.Managers.{Manager};
    ghost use Rattle.wl_world.specs.inner.Requests.{IsRising};

    ghost Value = { Manager };

    ghost view = { λ o. record {
      origin = record { state = C.state o.core; requests = o.requests };
      entries = C.entries o.core;
    } };

    // Each request is older than the next, and all are older than the one to come.
    ghost invariant = { λ o. IsRising 0 (C.state o.core).next.request o.requests };
}

impl<S: Copy + Drop, C: LockCore<Seed = S>> Origin<C> {
    pub(crate) fn new(supplies: &Supplies<S>) -> Origin<C>
        ensures origin { result.origin ≡ unused }
        ensures entries { result.entries ≡ C.no_entries }
    {
        let next = Numbers {
            agent: 1,
            request: 1,
            signal: 1,
        };
        Origin {
            core: C::make(supplies.alloc, supplies.seed, next),
            requests: Requests::new(supplies.alloc),
        }
    }
}

impl<C: LockCore> Origin<C> {
    /// The core alone.
    pub(crate) fn into_core(self) -> C
        ensures state { C.state result ≡ self.origin.state }
        ensures entries { C.entries result ≡ self.entries }
    {
        self.core
    }

    /// A new agent, which the machine numbers.
    pub(crate) fn open_agent(&mut self, kind: Kind) -> Result<Outcome, Memory>
        ensures admitted { IfOk result (λ outcome.
            act_result_of self.new.origin outcome ≡ admitted self.old.origin kind) }
        ensures entries { OnOk result (self.new.entries
            ≡ with_more (command_entries self.old.origin.state (Some (command.Enter kind))) self.old.entries) }
    {
        let agent = match self.core.open(kind) {
            Ok(agent) => agent,
            Err(refusal) => return refusal_outcome(refusal),
        };
        Ok(Outcome::Client(Some(agent)))
    }

    /// Does what an agent asks for.
    pub(crate) fn act(&mut self, agent: u64, body: &Body) -> Result<Outcome, Memory>
        ensures acted { IfOk result (λ outcome.
            act_result_of self.new.origin outcome ≡ act self.old.origin agent body.now) }
        ensures entries { OnOk result (self.new.entries
            ≡ with_more (command_entries self.old.origin.state (command_of agent body.now)) self.old.entries) }
    {
        let outcome = match operate(&mut self.core, agent, body) {
            Ok(outcome) => outcome,
            Err(refusal) => return refusal_outcome(refusal),
        };
        accept(&self.core, &mut self.requests, agent, &outcome)?;
        Ok(outcome)
    }

    /// Collects the agent's changed requests, by number: takes each granted lock among them.
    #[tactic(auto, unfolding(crate::specs::Origins::origin_after_collect))]
    pub(crate) fn collect(&mut self, alloc: Global, agent: u64) -> Result<Vec<(u64, Phase)>, Memory>
        ensures after_collect { OnOk result (self.new.origin
            ≡ origin_after_collect agent
            (changed_requests agent self.old.origin.requests) self.old.origin) }
        ensures taken { IfOk result (λ changed. changed.items
            ≡ map as_taken (changed_requests agent self.old.origin.requests)) }
        ensures entries { OnOk result (self.new.entries
            ≡ with_more (take_entries self.old.origin.state (changed_requests agent self.old.origin.requests))
            self.old.entries) }
        ensures by_number { IfOk result (λ changed. IsByNumber changed.items) }
    {
        let mut changed = self.requests.collect(alloc, agent)?;
        take_all(&mut self.core, &mut changed);
        Ok(changed)
    }
}

/// Takes each lock that is granted, in order.
fn take_all<C: LockCore>(core: &mut C, changed: &mut [(u64, Phase)])
    ensures state { C.state core.new ≡ fold take_observed (C.state core.old) changed.old }
    ensures entries { C.entries core.new
        ≡ with_more (take_entries (C.state core.old) changed.old) (C.entries core.old) }
    ensures taken { changed.new ≡ map as_taken changed.old }
{
    for observation in changed.iter_mut() {
        take_one(core, observation);
    }
}

fn take_one<C: LockCore>(core: &mut C, observation: &mut (u64, Phase))
    ensures state { C.state core.new ≡ take_observed (C.state core.old) observation.old }
    ensures entries { C.entries core.new
        ≡ with_more (command_entries (C.state core.old) (take_of observation.old)) (C.entries core.old) }
    ensures taken { observation.new ≡ as_taken observation.old }
{
    if is_granted(observation.1) {
        core.take(observation.0);
        observation.1 = Phase::Taken;
    }
}

fn is_granted(phase: Phase) -> bool
    ensures { result ≡ is_granted phase }
{
    matches!(phase, Phase::Granted)
}
