//! What each kind of step tells the seat that makes it, and how a view is cut in two or takes in another.

use crate::view::View;
use atomic_table::{Join, Play, Split};

/// A load by the owner or by a watch.
pub struct Look;

impl Play<(), View> for Look {
    ghost use Rattle.wl_cell.specs.inner.Steps.{Looked};

    ghost then = { Looked };
}

/// A store by the keeper.
pub struct Settle;

impl Play<(), View> for Settle {
    ghost use Rattle.wl_cell.specs.inner.Steps.{Settled};

    ghost then = { Settled };
}

/// The owner's exchange, of Granted for Taken.
pub struct Take;

impl Play<(), View> for Take {
    ghost use Rattle.wl_cell.specs.inner.Steps.{Exchanged};

    ghost then = { Exchanged };
}

/// The keeper's exchange, of Granted for Aborted.
pub struct TryAbort;

impl Play<(), View> for TryAbort {
    ghost use Rattle.wl_cell.specs.inner.Steps.{TriedAbort};

    ghost then = { TriedAbort };
}

/// The first seat becomes the owner's and makes the keeper's.
pub struct ForKeeper;

impl Split<View> for ForKeeper {
    ghost use Rattle.wl_cell.specs.inner.Steps.{owner_at_first, keeper_at_first};

    ghost left = { λ _. owner_at_first };

    ghost right = { λ _. keeper_at_first };
}

/// The owner makes a watch.
pub struct ForWatch;

impl Split<View> for ForWatch {
    ghost use Rattle.wl_cell.specs.inner.Steps.{watch_of};

    ghost left = { λ v. v };

    ghost right = { watch_of };
}

/// The owner makes a note of what it has seen.
pub struct ForNote;

impl Split<View> for ForNote {
    ghost use Rattle.wl_cell.specs.inner.Steps.{note_of};

    ghost left = { λ v. v };

    ghost right = { note_of };
}

/// A watch reads a note.
pub struct Told;

impl Join<View> for Told {
    ghost use Rattle.wl_cell.specs.inner.Steps.{told};
    ghost use Rattle.wl_cell.specs.declared.view.View.TheVariants.{Spent};

    ghost both = { told };

    ghost spent = { Spent };
}
