//! The end of a cell that settles it.

ghost use Rattle.std.specs.Prelude.{◌≡◌, IsTrue};
ghost use Rattle.std.specs.Bool.{OnTrue, OnFalse};
ghost use Rattle.wl_types.specs.declared.phases.Phase.TheVariants.{Granted, Taken, Aborted};
ghost use Rattle.wl_cell.specs.Seats.{may_settle};

use crate::handle::Handle;
use std::marker::Model;
use wl_types::{Phase, Reason};

/// The end that a manager keeps, one for each request. Contracts see its cell and its phase.
///
/// Its calls take no memory and cannot fail.
#[derive(Drop)]
pub struct Keeper {
    pub(crate) handle: Handle,
    pub(crate) phase: Phase,
}

impl Model for Keeper {
    ghost use Rattle.std.specs.Prelude.{◌≡◌};
    ghost use Rattle.wl_cell.specs.Seats.{KeeperSeat};
    ghost use Rattle.wl_cell.specs.inner.Rule.{keeper_at};

    ghost Value = { KeeperSeat };

    ghost view = { λ k. record { cell = k.handle.cell; phase = k.phase } };

    ghost invariant = { λ k. k.handle.knows ≡ keeper_at k.phase };
}

impl Keeper {
    /// What this keeper last settled or found. The word is at that phase, save that the owner may have taken a
    /// granted lock since.
    pub fn phase(&self) -> Phase
        ensures { result ≡ self.now.phase }
    {
        self.phase
    }

    /// Stores the phase that a command of the manager brought the request to.
    ///
    /// A granted lock may be settled Released or Stolen also where its owner has just taken it. To abort one is
    /// `try_abort`'s: a store could put Aborted over Taken.
    pub fn settle(&mut self, phase: Phase)
        requires { IsTrue (may_settle self.old.phase phase) }
        ensures { self.new ≡ record self.old { phase = phase } }
    {
        self.handle.store(phase);
        self.phase = phase;
    }

    /// Aborts a granted lock in one exchange, and says whether it did. It did not where the owner had taken the
    /// lock; this keeper's phase is then Taken.
    pub fn try_abort(&mut self, reason: Reason) -> bool
        requires { self.old.phase ≡ Granted }
        ensures aborted { OnTrue result (self.new ≡ record self.old { phase = Aborted reason }) }
        ensures taken { OnFalse result (self.new ≡ record self.old { phase = Taken }) }
    {
        if self.handle.abort(reason) {
            self.phase = Phase::Aborted(reason);
            return true;
        }
        self.phase = Phase::Taken;
        false
    }
}
