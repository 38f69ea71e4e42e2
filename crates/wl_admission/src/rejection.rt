//! Why a handshake is refused.

ghost use Rattle.std.specs.Prelude.{◌≡◌};
ghost use Rattle.wl_admission.specs.Handshakes.{status_of};

use std::error::Error;
use std::fmt;

/// Why a handshake is refused.
#[derive(Clone, Copy, Debug, PartialEq, Eq)]
pub enum Rejection {
    /// One of the headers that decide has bytes that are no visible ASCII.
    BadHeader,
    /// Its target names no origin, at a server where each handshake names one.
    BadTarget,
    /// It has more than one `Origin` header.
    SeveralOrigins,
    /// It has more than one token (RFC 6750, section 2: a client "must not use more than one method").
    SeveralTokens,
    /// It has a token among its subprotocols and none that the server selects. A browser would drop the answer.
    TokenAlone,
    /// A token is wanted, and it has none.
    NoToken,
    /// Its token is none of the server's.
    UnknownToken,
    /// As many connections as may be are there, in all or from its address.
    NoPlace,
    /// A growth was refused.
    Memory,
}

impl Rejection {
    /// The status of HTTP.
    pub fn status(self) -> u16
        ensures { result ≡ status_of self }
    {
        match self {
            Rejection::BadHeader
            | Rejection::BadTarget
            | Rejection::SeveralOrigins
            | Rejection::SeveralTokens
            | Rejection::TokenAlone => 400,
            Rejection::NoToken | Rejection::UnknownToken => 401,
            Rejection::NoPlace | Rejection::Memory => 503,
        }
    }

    /// What a log or the body of the answer says.
    pub fn text(self) -> &'static str {
        match self {
            Rejection::BadHeader => "a header that is no text",
            Rejection::BadTarget => "a target that is not /?origin= and an origin's canonical text",
            Rejection::SeveralOrigins => "more than one Origin header",
            Rejection::SeveralTokens => "more than one token",
            Rejection::TokenAlone => "a bearer subprotocol without one that is selected",
            Rejection::NoToken => "no token",
            Rejection::UnknownToken => "unknown token",
            Rejection::NoPlace => "too many connections",
            Rejection::Memory => "out of memory",
        }
    }
}

impl fmt::Display for Rejection {
    fn fmt<W: fmt::Write>(&self, f: &mut fmt::Formatter<W>) -> fmt::Result {
        write!(f, "{}", self.text())
    }
}

impl Error for Rejection {}
