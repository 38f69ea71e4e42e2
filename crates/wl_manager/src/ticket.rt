//! A ticket of a request.

ghost use Rattle.std.specs.Prelude.{◌≡◌, ◌≢◌, IfOk};
ghost use Rattle.wl_types.specs.declared.phases.Phase.TheVariants.{Pending};
ghost use Rattle.wl_types.specs.Phases.{Reaches};
ghost use Rattle.wl_cell.specs.Seats.{Takes};

use crate::count::Count;
use crate::manager::Manager;
use std::sync::{Arc, Wait};
use wl_cell::{Owner, Taking, Watch};
use wl_core::LockCore;
use wl_types::{Memory, Phase};

/// What an agent has of its request: the owner of its cell. It may move to another thread, and may outlive the
/// request and the agent. Only `wait` takes the manager's lock.
#[derive(Drop)]
pub struct Ticket<C: LockCore, T: Count> {
    pub(crate) manager: Arc<Manager<C, T>>,
    pub(crate) owner: Owner,
    pub(crate) number: u64,
}

impl<C: LockCore, T: Count> Ticket<C, T> {
    /// The number of the request, from 1 in its manager.
    pub fn number(&self) -> u64
        ensures { result ≡ self.now.number }
    {
        self.number
    }

    /// The phase of the request, by one load.
    pub fn look(&mut self) -> Phase
        ensures seen { self.new.owner ≡ record self.old.owner { seen = result } }
        ensures later { Reaches self.old.owner.seen result }
        ensures number { self.new.number ≡ self.old.number }
    {
        self.owner.look()
    }

    /// Takes the lock if it is granted, in one exchange. From then on an abort doesn't end it.
    pub fn take(&mut self) -> Taking
        ensures takes { Takes self.old.owner result self.new.owner }
        ensures number { self.new.number ≡ self.old.number }
    {
        self.owner.take()
    }

    /// Somebody else's look at the request. `Memory` comes only where the count of the cell's ends is used up.
    pub fn watch(&mut self) -> Result<Watch, Memory>
        ensures same { self.new.owner ≡ self.old.owner }
        ensures number { self.new.number ≡ self.old.number }
        ensures watch { IfOk result (λ watch. watch ≡ record {
          cell = self.old.owner.cell;
          seen = self.old.owner.seen;
        }) }
    {
        self.owner.watch()
    }

    /// The first phase that isn't Pending. It takes nothing, and nothing says that it returns.
    pub fn wait<R: Wait>(&mut self, rt: &R) -> Phase
        ensures published { result ≢ Pending }
        ensures later { Reaches self.old.owner.seen result }
        ensures number { self.new.number ≡ self.old.number }
    {
        let Ticket { manager, owner, .. } = self;
        let mut locked = manager.lock(rt);
        for _ in rt.forever() {
            let phase = owner.look();
            if phase != Phase::Pending {
                return phase;
            }
            locked = manager.published.wait(rt, locked);
        }
        unreachable!()
    }
}
