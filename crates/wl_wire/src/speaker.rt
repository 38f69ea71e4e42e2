//! Who answers over a connection.

ghost use Rattle.std.specs.Prelude.{◌≡◌, ℕ, List, IfOk, IfSome, IfNone, string_bytes};
ghost use Rattle.wl_wire.specs.Answers.{IfText};

use crate::ending::Ending;
use std::sync::Wait;
use wl_types::Memory;

/// What is said to a message.
#[derive(Debug, Drop)]
pub enum Answer {
    /// This text.
    Text(String),
    /// Nothing: the connection ends.
    End(Ending),
}

/// Who answers the messages of a connection, each in the state that the ones before it left, and says without being
/// asked what changed. Who has one has to end it: it is no `Drop`.
pub trait Speaker: Sized {
    /// The message is answered by the text.
    ghost answers: { Self → List ℕ → List ℕ → Self → Type 0 };

    /// The text says what changed.
    ghost pushes: { Self → List ℕ → Self → Type 0 };

    /// Nothing changed.
    ghost rests: { Self → Self → Type 0 } = { λ old new. new ≡ old };

    /// Where memory is refused, the speaker has ended.
    fn answer<R: Wait>(self, rt: &R, message: &[u8]) -> Result<(Self, Answer), Memory>
        ensures { IfOk result (λ said. IfText said.1 (λ text. answers self message.now text said.0)) };

    /// What changed since the last answer or push; none where nothing did. Where memory is refused, the speaker has
    /// ended.
    fn push<R: Wait>(self, rt: &R) -> Result<(Self, Option<String>), Memory>
        ensures text { IfOk result (λ said. IfSome said.1 (λ text. pushes self (string_bytes text) said.0)) }
        ensures none { IfOk result (λ said. IfNone said.1 (rests self said.0)) };

    fn end<R: Wait>(self, rt: &R);
}
