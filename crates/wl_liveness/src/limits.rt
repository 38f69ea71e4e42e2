//! How long a connection has for what.

ghost use Rattle.std.specs.Prelude.{◌≡◌};
ghost use Rattle.wl_liveness.specs.Liveness.{limits_for};

/// The milliseconds that a peer has to ask for a WebSocket.
const HANDSHAKE: u64 = 10_000;

/// The milliseconds for which a connection that is closing is read from.
const CLOSING: u64 = 2_000;

/// The bytes that are read from a connection that is closing.
const CLOSING_BYTES: u64 = 65_536;

/// What a connection is held to. Times are in milliseconds.
#[derive(Clone, Copy, Debug, PartialEq, Eq)]
pub struct Limits {
    /// The time for the handshake.
    pub handshake: u64,
    /// The silence after which a peer is pinged.
    pub ping_after: u64,
    /// The silence after which a connection ends whose peer was pinged.
    pub end_after: u64,
    /// The time that its peer has at least to answer the ping.
    pub answer: u64,
    /// The time for which a connection that is closing is still read from.
    pub closing: u64,
    /// The bytes that are read from a connection that is closing.
    pub closing_bytes: u64,
}

impl Limits {
    /// The limits of a server that pings a peer after so many seconds of silence, and ends its connection after twice
    /// as many, but no sooner behind the ping than after half as many.
    pub fn for_idle(seconds: u32) -> Limits
        ensures { result ≡ limits_for seconds }
    {
        let seconds = u64::from(seconds);
        Limits {
            handshake: HANDSHAKE,
            ping_after: seconds * 1_000,
            end_after: seconds * 2_000,
            answer: seconds * 500,
            closing: CLOSING,
            closing_bytes: CLOSING_BYTES,
        }
    }
}
