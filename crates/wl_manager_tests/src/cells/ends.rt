//! Calls of the ends of one cell.

ghost use Rattle.std.specs.Prelude.{◌≡◌, IsTrue};
ghost use Rattle.std.specs.Bool.{OnTrue};
ghost use Rattle.wl_types.specs.declared.phases.Phase.TheVariants.{Granted};
ghost use Rattle.wl_cell.specs.Seats.{may_settle};

use crate::rows::{Driver, show};
use std::alloc::Global;
use std::sync::Wait;
use wl_cell::{Keeper, Owner, Watch, agree, cell};
use wl_types::{Memory, Phase, Reason};

#[derive(Clone, Copy, Debug, Drop)]
pub enum Call {
    /// A new cell in the place of the one before.
    New,
    /// By the keeper; false where the cell may not be settled so.
    Settle(Phase),
    /// By the keeper; None where it granted nothing.
    TryAbort(Reason),
    /// The keeper's phase.
    Kept,
    /// By the owner.
    Look,
    /// By the owner.
    Take,
    /// A new watch of the owner's, in the place of the one before.
    Watch,
    /// By the watch.
    LookOn,
    /// By the owner and the watch.
    Agree,
}

/// The ends of one cell.
#[derive(Drop)]
pub struct Ends {
    alloc: Global,
    keeper: Keeper,
    owner: Owner,
    watch: Watch,
    ghost one: { watch.cell ≡ owner.cell },
}

impl Ends {
    /// Of a new cell, whose watch has seen nothing yet.
    pub fn new(alloc: Global) -> Result<Ends, Memory> {
        let (keeper, mut owner) = cell(alloc)?;
        let watch = owner.watch()?;
        Ok(Ends {
            alloc,
            keeper,
            owner,
            watch,
        })
    }

    fn begin_anew(&mut self) -> Result<bool, Memory> {
        *self = Ends::new(self.alloc)?;
        Ok(true)
    }

    fn watch_anew(&mut self) -> Result<bool, Memory> {
        self.watch = self.owner.watch()?;
        Ok(true)
    }

    fn agree_all(&mut self) -> Result<(Phase, Phase), Memory> {
        agree(&mut self.owner, &mut self.watch)
    }
}

impl Driver for Ends {
    type Call = Call;

    fn answer<R: Wait>(&mut self, _rt: &R, call: &Call) -> Result<String, Memory> {
        let alloc = self.alloc;
        match *call {
            Call::New => show(alloc, &self.begin_anew()?),
            Call::Settle(phase) => show(alloc, &settle(&mut self.keeper, phase)),
            Call::TryAbort(reason) => show(alloc, &try_abort(&mut self.keeper, reason)),
            Call::Kept => show(alloc, &self.keeper.phase()),
            Call::Look => show(alloc, &self.owner.look()),
            Call::Take => show(alloc, &self.owner.take()),
            Call::Watch => show(alloc, &self.watch_anew()?),
            Call::LookOn => show(alloc, &self.watch.look()),
            Call::Agree => show(alloc, &self.agree_all()?),
        }
    }
}

/// Whether a keeper at the one phase may store the other.
fn may_settle(from: Phase, to: Phase) -> bool
    ensures { OnTrue result (IsTrue (may_settle from to)) }
{
    match from {
        Phase::Pending => matches!(to, Phase::Granted | Phase::Unavailable | Phase::Aborted(_)),
        Phase::Granted | Phase::Taken => matches!(to, Phase::Released | Phase::Stolen),
        _ => false,
    }
}

fn settle(keeper: &mut Keeper, phase: Phase) -> bool {
    if !may_settle(keeper.phase(), phase) {
        return false;
    }
    keeper.settle(phase);
    true
}

fn try_abort(keeper: &mut Keeper, reason: Reason) -> Option<bool> {
    if keeper.phase() != Phase::Granted {
        return None;
    }
    Some(keeper.try_abort(reason))
}
