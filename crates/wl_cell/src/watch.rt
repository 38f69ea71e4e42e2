//! The end of a cell that looks alone, and how an owner tells it what was seen.

ghost use Rattle.std.specs.Prelude.{◌≡◌, IsOk, IfOk};
ghost use Rattle.wl_types.specs.Phases.{Reaches};

use crate::handle::Handle;
use crate::owner::Owner;
use std::marker::Model;
use wl_types::{Memory, Phase};

/// An end that looks and does nothing else. There may be any number of them, in any threads. Contracts see its
/// cell and the phase that it saw last.
#[derive(Drop)]
pub struct Watch {
    pub(crate) handle: Handle,
}

impl Model for Watch {
    ghost use Rattle.std.specs.Prelude.{◌≡◌};
    ghost use Rattle.wl_cell.specs.Seats.{WatchSeat};
    ghost use Rattle.wl_cell.specs.Rule.{seen};
    ghost use Rattle.wl_cell.specs.inner.Rule.{watch_at};

    ghost Value = { WatchSeat };

    ghost view = { λ w. record { cell = w.handle.cell; seen = seen w.handle.knows } };

    ghost invariant = { λ w. w.handle.knows ≡ watch_at (seen w.handle.knows) };
}

impl Watch {
    /// The phase of the cell, by one load. What this watch saw before reaches it.
    ///
    /// That the load is of now, and no older phase of the cell's path, is shown by tests.
    pub fn look(&mut self) -> Phase
        ensures seen { self.new ≡ record self.old { seen = result } }
        ensures later { Reaches self.old.seen result }
    {
        self.handle.load()
    }
}

/// The owner looks and tells the watch, and then the watch looks. So the second phase is the first, or one that
/// the first reaches.
///
/// A note between the two ends takes no memory, so `Memory` never comes today.
pub fn agree(owner: &mut Owner, watch: &mut Watch) -> Result<(Phase, Phase), Memory>
    requires { watch.old.cell ≡ owner.old.cell }
    ensures ok { IsOk result }
    ensures told { IfOk result (λ p. Reaches p.0 p.1) }
    ensures later { IfOk result (λ p. Reaches owner.old.seen p.0 × Reaches watch.old.seen p.1) }
    ensures owner { IfOk result (λ p. owner.new ≡ record owner.old { seen = p.0 }) }
    ensures watch { IfOk result (λ p. watch.new ≡ record watch.old { seen = p.1 }) }
{
    let first = owner.look();
    owner.handle.tell(&mut watch.handle);
    let second = watch.handle.load();
    Ok((first, second))
}
