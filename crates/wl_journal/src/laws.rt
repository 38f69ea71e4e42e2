//! Laws of histories. Each is the contract of a function without a body.

ghost use Rattle.wl_journal.specs.Laws.{FirstIllegalIsIllegal, FirstIllegalIsOne};

/// A history with a first illegal entry is not legal, and has one such entry.
pub fn first_illegal_is_one()
    ensures illegal { FirstIllegalIsIllegal }
    ensures one { FirstIllegalIsOne }
{}
