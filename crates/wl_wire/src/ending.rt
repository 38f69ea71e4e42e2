//! Why a connection ends, and what its peer is told.

ghost use Rattle.std.specs.Prelude.{◌≡◌, true, option_map};
ghost use Rattle.tungstenite.specs.CloseCode.{close_code_number};
ghost use Rattle.tungstenite.specs.Failure.{IsIo};
ghost use Rattle.wl_wire.specs.Endings.{close_number, ending_for};

use bytes::ByteStr;
use std::io::ErrorKind;
use tungstenite::{CloseCode, CloseFrame, Error};
use websocket::error::ProtocolError;

/// Why a connection ends.
#[derive(Clone, Copy, Debug, PartialEq, Eq)]
pub enum Ending {
    /// The peer sent a close frame, and it was answered.
    Closed,
    /// A message was longer than may be.
    TooLong,
    /// The peer broke the protocol.
    Protocol,
    /// A text was no UTF-8.
    NotText,
    /// What the peer asked for is not for it.
    Forbidden(&'static str),
    /// The server has no room for what the peer asked for.
    Busy(&'static str),
    /// The server ends.
    Away,
    /// A growth was refused.
    Memory,
    /// The stream failed or ended, so that nothing more can be sent.
    Broken,
}

impl Ending {
    /// The close frame for it (RFC 6455, section 7.4.1; 1013 is in the registry that it set up).
    pub fn frame(self) -> Option<CloseFrame>
        ensures { option_map (λ frame. close_code_number frame.code) result ≡ close_number self }
    {
        let (code, reason) = match self {
            Ending::Closed | Ending::Broken => return None,
            Ending::TooLong => (CloseCode::Size, "message too long"),
            Ending::Protocol => (CloseCode::Protocol, "broken frame"),
            Ending::NotText => (CloseCode::Invalid, "not UTF-8"),
            Ending::Forbidden(reason) => (CloseCode::Policy, reason),
            Ending::Busy(reason) => (CloseCode::Again, reason),
            Ending::Away => (CloseCode::Away, "server ends"),
            Ending::Memory => (CloseCode::Error, "out of memory"),
        };
        Some(CloseFrame {
            code,
            reason: ByteStr::from_static(reason),
        })
    }
}

/// What a read or a write ended with.
pub fn ending_of(error: &Error) -> Ending
    ensures { result ≡ ending_for error.now }
{
    match error {
        Error::Capacity(_) => Ending::TooLong,
        // No close frame came before the end, as where a program was killed.
        Error::Protocol(ProtocolError::ResetWithoutClosingHandshake) => Ending::Broken,
        Error::Protocol(_) => Ending::Protocol,
        Error::Utf8 => Ending::NotText,
        Error::OutOfMemory => Ending::Memory,
        Error::ConnectionClosed => Ending::Closed,
        _ => Ending::Broken,
    }
}

/// Whether an error says that the stream would block.
pub fn would_block(error: &Error) -> bool
    ensures { result ≡ true → IsIo error.now }
{
    match error {
        Error::Io(error) => error.kind() == ErrorKind::WouldBlock,
        _ => false,
    }
}
