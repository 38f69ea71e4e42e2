//! Laws of the table of phases. Each is the contract of a function without a body.

ghost use Rattle.wl_types.specs.Phases.{PhasesAreAChain, ReachingIsByMoves};

/// Of two phases that reach a third, one reaches the other: what several looks at one request found can be put
/// into one order.
pub fn phases_are_a_chain()
    ensures { PhasesAreAChain }
{}

/// A phase reaches another just where moves of the table, or none, lead to it.
pub fn reaching_is_by_moves()
    ensures { ReachingIsByMoves }
{}
