//! What the rule of a cell and its words mean. Each law is the contract of a function without a body.

ghost use Rattle.wl_cell.specs.Laws.{SeatsAgree, EndsAreEqual, NoAbortOnceTaken, WordsTellPhasesApart};

/// Between any two steps, of two phases that seats of a cell know, one reaches the other. So what they found can
/// be put into one order.
pub fn seats_agree()
    ensures { SeatsAgree }
{}

/// Between any two steps, two ends that seats of a cell know are equal.
pub fn ends_are_equal()
    ensures { EndsAreEqual }
{}

/// Between any two steps, if the owner took the lock, no seat knows an abort: not the keeper, whose exchange then
/// found Taken, and no watch. And where an abort is known, the owner took nothing.
pub fn no_abort_once_taken()
    ensures { NoAbortOnceTaken }
{}

/// No two phases share a word of a cell. So an abort is read back with its very reason: no two codes share a word,
/// and none has that of a named reason.
pub fn words_tell_phases_apart()
    ensures { WordsTellPhasesApart }
{}
