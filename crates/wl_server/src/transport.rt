//! What a conversation is held over, and who answers in it.

ghost use Rattle.std.specs.Prelude.{◌≡◌, ℕ, List, IfOk, IfErr, IfSome, IfNone, Ok, string_bytes};
ghost use Rattle.wl_server.specs.inner.Talks.{data_bytes};

use crate::ServeFault;
use bytes::{ByteStr, Bytes};
use std::sync::Wait;
use wl_types::Memory;

/// The bytes of a message that came.
#[derive(Drop)]
pub enum Data {
    Text(ByteStr),
    Binary(Bytes),
}

impl Data {
    /// A text's bytes are UTF-8; which of the two came makes no difference to the answer.
    pub fn bytes(&self) -> &[u8]
        ensures { result.now ≡ data_bytes self.now }
    {
        match self {
            Data::Text(text) => text.as_str().as_bytes(),
            Data::Binary(bytes) => bytes.as_slice(),
        }
    }
}

/// What became of a reply.
#[derive(Clone, Copy, Debug, PartialEq, Eq, Drop)]
pub enum Sending {
    /// It was sent whole.
    Sent,
    /// It wasn't, since the peer had closed.
    Closed,
}

/// A connection. Its contracts tell how each call takes it from one state to the next.
pub trait Transport {
    ghost use Rattle.wl_server.specs.declared.fault.ServeFault.{ServeFault};

    /// This message came.
    ghost hears: { Self → List ℕ → Self → Type 0 };

    /// The peer closed.
    ghost closes: { Self → Self → Type 0 };

    /// This text was sent whole.
    ghost says: { Self → List ℕ → Self → Type 0 };

    /// A call failed.
    ghost fails: { Self → ServeFault → Self → Type 0 };

    /// The next message, or none where the peer closed.
    fn receive<R: Wait>(&mut self, rt: &R) -> Result<Option<Data>, ServeFault>
        ensures heard { IfOk result (λ came. IfSome came (λ given. hears self.old (data_bytes given) self.new)) }
        ensures closed { IfOk result (λ came. IfNone came (closes self.old self.new)) }
        ensures failed { IfErr result (λ fault. fails self.old fault self.new) };

    /// Sends a reply.
    fn send(&mut self, text: &str) -> Result<Sending, ServeFault>
        ensures said { result ≡ Ok Sending.Sent → says self.old text.now self.new }
        ensures closed { result ≡ Ok Sending.Closed → closes self.old self.new }
        ensures failed { IfErr result (λ fault. fails self.old fault self.new) };
}

/// Answers messages, each in the state that the ones before it left. Who has one has to end it: it is no `Drop`.
pub trait Speaker: Sized {
    /// The message is answered by the text.
    ghost answers: { Self → List ℕ → List ℕ → Self → Type 0 };

    /// Where memory is refused, the speaker has ended.
    fn answer<R: Wait>(self, rt: &R, message: &[u8]) -> Result<(Self, String), Memory>
        ensures { IfOk result (λ said. answers self message.now (string_bytes said.1) said.0) };

    fn end<R: Wait>(self, rt: &R);
}
