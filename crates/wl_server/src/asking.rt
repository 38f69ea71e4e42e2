//! Who answers the lines that are relayed.

ghost use Rattle.std.specs.Prelude.{ℕ, List, OnOk};

use std::sync::Wait;

/// Why no reply came.
#[derive(Clone, Copy, Debug, PartialEq, Eq, Drop)]
pub enum NoReply {
    Ended,
    Memory,
}

/// Answers lines, each in the state that the ones before it left.
pub trait Asker {
    /// This line was asked, and this reply came.
    ghost asks: { Self → List ℕ → List ℕ → Self → Type 0 };

    /// Asks a line, and puts its reply in place of what `reply` has.
    fn ask<R: Wait>(&mut self, rt: &R, line: &[u8], reply: &mut Vec<u8>) -> Result<(), NoReply>
        ensures { OnOk result (asks self.old line.now reply.new.items self.new) };
}
