//! The keepers of a manager, by the numbers of their requests, and the inboxes that their changes go to.

ghost use Rattle.std.specs.Prelude.{◌≡◌, ◌==◌, ◌⊎◌, ℕ, IsTrue, [], ◌∷◌, Some, None, OnOk, OnErr, if◌then◌else◌};
ghost use Rattle.std.specs.Bool.{OnTrue, OnFalse};
ghost use Rattle.wl_types.specs.declared.phases.Phase.TheVariants.{Granted, Taken, Aborted};
ghost use Rattle.wl_machine.specs.Laws.{phases_of};
ghost use Rattle.wl_cell.specs.Seats.{may_settle};
ghost use Rattle.wl_manager.specs.Keepers.{seat_at, phases_at, cells_at};
ghost use Rattle.wl_manager.specs.inner.Keepers.{ends_request, MayPublish, MayPublishAll, after};

use crate::coarse_clock::CoarseClock;
use crate::inbox::Inbox;
use std::alloc::Global;
use std::collections::BTreeMap;
use std::marker::Model;
use std::sync::Arc;
use wl_cell::Keeper;
use wl_types::{Change, Memory, Phase, Reason};

/// When a request was asked for and when it was granted, by the manager's clock; until it is granted the two are one.
#[derive(Clone, Copy, Debug)]
pub(crate) struct Times {
    pub(crate) asked: u64,
    pub(crate) granted: u64,
}

/// A keeper, the inbox of its request's agent, and its times. Contracts see the keeper.
#[derive(Drop)]
struct Place {
    keeper: Keeper,
    inbox: Arc<Inbox>,
    times: Times,
}

impl Model for Place {
    ghost use Rattle.wl_cell.specs.Seats.{KeeperSeat};

    ghost Value = { KeeperSeat };

    ghost view = { λ p. p.keeper };
}

impl Place {
    /// Publishes the phase in the cell, if it isn't there, and then adds the request to the agent's inbox.
    fn publish(&mut self, id: u64, phase: Phase, now: u64)
        requires { (self.old.phase ≡ phase) ⊎ IsTrue (may_settle self.old.phase phase) }
        ensures { self.new ≡ record self.old { phase = phase } }
    {
        if self.keeper.phase() != phase {
            self.keeper.settle(phase);
            if phase == Phase::Granted {
                self.times.granted = now;
            }
        }
        self.inbox.add(id);
    }

    /// As the keeper's.
    fn try_abort(&mut self, reason: Reason) -> bool
        requires { self.old.phase ≡ Granted }
        ensures aborted { OnTrue result (self.new ≡ record self.old { phase = Aborted reason }) }
        ensures taken { OnFalse result (self.new ≡ record self.old { phase = Taken }) }
    {
        self.keeper.try_abort(reason)
    }
}

/// Keepers by number. Contracts see the keeper of each number.
#[derive(Drop)]
pub(crate) struct Keepers {
    kept: BTreeMap<u64, Place>,
    // Without it each request came, and was granted, at 0.
    clock: Option<CoarseClock>,
}

impl Model for Keepers {
    ghost use Rattle.wl_manager.specs.Keepers.{Kept};

    ghost Value = { Kept };

    ghost view = { λ k. k.kept.entries };
}

impl Keepers {
    pub(crate) fn new(alloc: Global, clock: Option<CoarseClock>) -> Keepers
        ensures { result ≡ [] }
    {
        Keepers {
            kept: BTreeMap::new(alloc),
            clock,
        }
    }

    fn now(&self) -> u64 {
        match &self.clock {
            Some(clock) => clock.now(),
            None => 0,
        }
    }

    /// The times of the request of this number, which has a keeper.
    pub(crate) fn times(&self, id: u64) -> Times {
        match self.kept.get(&id) {
            Some(place) => place.times,
            None => Times {
                asked: 0,
                granted: 0,
            },
        }
    }

    /// Keeps this keeper under this number, and the inbox that its changes go to.
    pub(crate) fn put(&mut self, id: u64, keeper: Keeper, inbox: Arc<Inbox>) -> Result<(), Memory>
        ensures put { OnOk result ((other : ℕ) → seat_at other self.new
            ≡ (if other == id then Some keeper else seat_at other self.old)) }
        ensures err { OnErr result (self.new ≡ self.old) }
    {
        let now = self.now();
        let times = Times {
            asked: now,
            granted: now,
        };
        let place = Place {
            keeper,
            inbox,
            times,
        };
        self.kept.insert(id, place)?;
        Ok(())
    }

    /// Drops the keeper of this number.
    pub(crate) fn remove(&mut self, id: u64)
        ensures { (other : ℕ) → seat_at other self.new ≡ (if other == id then None else seat_at other self.old) }
    {
        self.kept.remove(&id);
    }

    /// Drops the keepers of the requests that these changes end.
    pub(crate) fn drop_ended(&mut self, changes: &[Change])
        ensures { (id : ℕ) → seat_at id self.new ≡ (if ends_request id changes.now then None else seat_at id self.old) }
    {
        let mut i = 0;
        while i < changes.len() {
            if changes[i].phase.is_end() {
                self.remove(changes[i].id);
            }
            i += 1;
        }
    }

    /// Publishes the phase in the cell of this number, if it isn't there, and adds it to its agent's inbox.
    pub(crate) fn publish(&mut self, id: u64, phase: Phase)
        requires { MayPublish (phases_at id self.old) phase }
        ensures phases { (other : ℕ) → phases_at other self.new
            ≡ (if other == id then phase ∷ [] else phases_at other self.old) }
        ensures cells { (other : ℕ) → cells_at other self.new ≡ cells_at other self.old }
    {
        let now = self.now();
        self.kept.get_mut(&id).unwrap().publish(id, phase, now);
    }

    /// Publishes all these changes in their cells, in their order.
    pub(crate) fn publish_all(&mut self, changes: &[Change])
        requires { (id : ℕ) → MayPublishAll (phases_at id self.old) (phases_of id changes.now) }
        ensures phases { (id : ℕ) → phases_at id self.new ≡ after (phases_of id changes.now) (phases_at id self.old) }
        ensures cells { (id : ℕ) → cells_at id self.new ≡ cells_at id self.old }
    {
        let mut i = 0;
        while i < changes.len() {
            self.publish(changes[i].id, changes[i].phase);
            i += 1;
        }
    }

    /// Aborts the granted lock of this number, unless its owner took it.
    pub(crate) fn try_abort(&mut self, id: u64, reason: Reason) -> bool
        requires { phases_at id self.old ≡ Granted ∷ [] }
        ensures phases { (other : ℕ) → phases_at other self.new
            ≡ (if other == id then (if result then Aborted reason else Taken) ∷ [] else phases_at other self.old) }
        ensures cells { (other : ℕ) → cells_at other self.new ≡ cells_at other self.old }
    {
        self.kept.get_mut(&id).unwrap().try_abort(reason)
    }
}
