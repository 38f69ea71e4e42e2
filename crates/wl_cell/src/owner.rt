//! The end of a cell that may take the lock.

ghost use Rattle.std.specs.Prelude.{◌≡◌, IfOk};
ghost use Rattle.wl_types.specs.Phases.{Reaches};
ghost use Rattle.wl_cell.specs.Seats.{Takes};

use crate::handle::Handle;
use crate::watch::Watch;
use std::marker::Model;
use wl_types::{Memory, Phase};

/// What an owner's try to take its lock found.
#[derive(Clone, Copy, Debug, PartialEq, Eq, Drop)]
pub enum Taking {
    /// The lock was granted, and this call took it.
    Taken,
    /// The request waits.
    Pending,
    /// The lock was taken before, or the request has ended: the phase found. It is never Pending or Granted.
    Before(Phase),
}

/// The end that the agent of a request has. It may move to another thread. Contracts see its cell, the phase that
/// it saw last, and whether it took the lock.
#[derive(Drop)]
pub struct Owner {
    pub(crate) handle: Handle,
}

impl Model for Owner {
    ghost use Rattle.std.specs.Prelude.{◌≡◌};
    ghost use Rattle.wl_cell.specs.Seats.{OwnerSeat};
    ghost use Rattle.wl_cell.specs.Rule.{took, seen};
    ghost use Rattle.wl_cell.specs.inner.Rule.{owner_at};

    ghost Value = { OwnerSeat };

    ghost view = { λ o. record { cell = o.handle.cell; seen = seen o.handle.knows; took = took o.handle.knows } };

    ghost invariant = { λ o. o.handle.knows ≡ owner_at (took o.handle.knows) (seen o.handle.knows) };
}

impl Owner {
    /// The phase of the cell, by one load. What this owner saw before reaches it.
    ///
    /// That the load is of now, and no older phase of the cell's path, is shown by tests.
    pub fn look(&mut self) -> Phase
        ensures seen { self.new ≡ record self.old { seen = result } }
        ensures later { Reaches self.old.seen result }
    {
        self.handle.load()
    }

    /// Takes the lock if it is granted, in one exchange. No other call, and no second take, answers Taken.
    pub fn take(&mut self) -> Taking
        ensures { Takes self.old result self.new }
    {
        match self.handle.take() {
            Phase::Granted => Taking::Taken,
            Phase::Pending => Taking::Pending,
            before => Taking::Before(before),
        }
    }

    /// A watch of this cell, which has seen what this owner has. It may outlive the owner.
    ///
    /// `Memory` comes only where the count of the cell's ends is used up.
    pub fn watch(&mut self) -> Result<Watch, Memory>
        ensures same { self.new ≡ self.old }
        ensures watch { IfOk result (λ w. w ≡ record { cell = self.old.cell; seen = self.old.seen }) }
    {
        let handle = self.handle.watch()?;
        Ok(Watch { handle })
    }
}
