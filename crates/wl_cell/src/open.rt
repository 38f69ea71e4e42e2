//! New cells.

ghost use Rattle.std.specs.Prelude.{◌≡◌, IfOk, false};
ghost use Rattle.wl_types.specs.declared.phases.Phase.TheVariants.{Pending};

use crate::handle::Handle;
use crate::keeper::Keeper;
use crate::owner::Owner;
use std::alloc::Global;
use wl_types::{Memory, Phase};

/// A new cell, at Pending, with its keeper and its owner. It lives until its last end is dropped. `Memory` comes
/// where a growth was refused, and nothing is left behind.
pub fn cell(alloc: Global) -> Result<(Keeper, Owner), Memory>
    ensures one { IfOk result (λ ends. ends.1.cell ≡ ends.0.cell) }
    ensures keeper { IfOk result (λ ends. ends.0.phase ≡ Pending) }
    ensures owner { IfOk result (λ ends. (ends.1.seen ≡ Pending) × (ends.1.took ≡ false)) }
{
    let (owners, keepers) = Handle::pair(alloc)?;
    let keeper = Keeper {
        handle: keepers,
        phase: Phase::Pending,
    };
    Ok((keeper, Owner { handle: owners }))
}
