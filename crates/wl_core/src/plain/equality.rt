//! When two plain cores are equal.

use crate::plain::PlainCore;
use wl_machine::same_next;

/// Two plain cores are equal where their states are: the changes of the last call play no part.
impl PartialEq for PlainCore {
    ghost use Rattle.std.specs.Cmp.{partial_equiv_from_equiv};
    ghost use Rattle.std.proofs.lemmas.Cmp.{on_equiv};
    ghost use Rattle.std.specs.Ordering.{on};
    ghost use Rattle.wl_machine.specs.Same.{same_state};
    ghost use Rattle.wl_machine.specs.Alike.{same_state_equiv};

    ghost eq = { on (λ c. c.state) same_state };

    ghost laws = { partial_equiv_from_equiv (on_equiv (λ c. c.state) same_state_equiv) };

    fn eq(&self, other: &PlainCore) -> bool {
        self.agents == other.agents
            && self.signals == other.signals
            && self.names == other.names
            && self.held == other.held
            && self.pending == other.pending
            && same_next(self.next, other.next)
    }
}

impl Eq for PlainCore {
    ghost use Rattle.std.proofs.lemmas.Cmp.{on_equiv};
    ghost use Rattle.wl_machine.specs.Alike.{same_state_equiv};

    ghost laws = { on_equiv (λ c. c.state) same_state_equiv };
}
