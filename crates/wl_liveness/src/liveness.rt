//! How far a connection is, and what is due for it.

ghost use Rattle.std.specs.Prelude.{◌≡◌};
ghost use Rattle.wl_liveness.specs.Liveness.{due_of, new_liveness, opened, heard, after_ping, closing, dropping};
ghost use Rattle.wl_liveness.specs.Liveness.{spared};

use crate::limits::Limits;

/// How far a connection is, with what its limits are about.
#[derive(Clone, Copy, Debug, PartialEq, Eq)]
pub enum Liveness {
    /// Its peer has still to ask for a WebSocket.
    Handshake {
        /// When the connection began. What comes meanwhile wins no time.
        since: u64,
    },
    /// Messages may come and go.
    Open {
        /// When bytes last came, or the peer took what there had been no room for. Else bytes that were sent are no sign
        /// of life: the system takes them for a peer that is gone.
        heard: u64,
        /// When its peer was pinged since, if it was.
        pinged: Option<u64>,
    },
    /// All was sent that will be; what still comes is read and dropped, so that what was sent isn't lost by a reset.
    Closing {
        since: u64,
        /// The bytes that were dropped, at most 2^64 - 1.
        dropped: u64,
    },
}

/// What is due for a connection.
#[derive(Clone, Copy, Debug, PartialEq, Eq)]
pub enum Due {
    Nothing,
    Ping,
    End,
}

impl Liveness {
    /// A connection that began just now.
    pub fn new(now: u64) -> Liveness
        ensures { result ≡ new_liveness now }
    {
        Liveness::Handshake { since: now }
    }

    /// The handshake was done, so bytes came.
    pub fn open(&mut self, now: u64)
        ensures { self.new ≡ opened now }
    {
        *self = Liveness::Open {
            heard: now,
            pinged: None,
        };
    }

    /// Bytes came, or another sign of life. That counts for an open connection alone.
    pub fn hear(&mut self, now: u64)
        ensures { self.new ≡ heard self.old now }
    {
        if let Liveness::Open { .. } = self {
            self.open(now);
        }
    }

    /// A ping was sent.
    pub fn ping(&mut self, now: u64)
        ensures { self.new ≡ after_ping self.old now }
    {
        if let Liveness::Open { pinged, .. } = self {
            *pinged = Some(now);
        }
    }

    /// The connection is closing. One that was closing before goes on as it was.
    pub fn close(&mut self, now: u64)
        ensures { self.new ≡ closing self.old now }
    {
        match self {
            Liveness::Closing { .. } => {}
            _ => {
                *self = Liveness::Closing {
                    since: now,
                    dropped: 0,
                }
            }
        }
    }

    /// So many bytes were read and dropped.
    pub fn drop_bytes(&mut self, count: u64)
        ensures { self.new ≡ dropping self.old count }
    {
        if let Liveness::Closing { dropped, .. } = self {
            *dropped = dropped.saturating_add(count);
        }
    }

    /// For so many milliseconds nobody could serve the connection, as where the process was stopped: what its peer sent
    /// then wasn't read, and so that time is no silence, nor any of its handshake's or its closing's.
    pub fn spare(&mut self, time: u64)
        ensures { self.new ≡ spared self.old time }
    {
        *self = match *self {
            Liveness::Handshake { since } => Liveness::Handshake {
                since: since.saturating_add(time),
            },
            Liveness::Open { heard, pinged } => Liveness::Open {
                heard: heard.saturating_add(time),
                pinged: pinged.map(|at| at.saturating_add(time)),
            },
            Liveness::Closing { since, dropped } => Liveness::Closing {
                since: since.saturating_add(time),
                dropped,
            },
        };
    }

    /// What is due, as far as all is known that came up to now. Whoever reads what came by turns, which may take long,
    /// gives the time at which they began, and to `ping` the time at which the ping leaves.
    pub fn due(&self, now: u64, limits: &Limits) -> Due
        ensures { result ≡ due_of self.now now limits.now }
    {
        match *self {
            Liveness::Handshake { since } => end_if(now.saturating_sub(since) >= limits.handshake),
            Liveness::Open { heard, pinged } => {
                let silence = now.saturating_sub(heard);
                match pinged {
                    None if silence >= limits.ping_after => Due::Ping,
                    None => Due::Nothing,
                    Some(at) => end_if(
                        silence >= limits.end_after && now.saturating_sub(at) >= limits.answer,
                    ),
                }
            }
            Liveness::Closing { since, dropped } => end_if(
                now.saturating_sub(since) >= limits.closing || dropped >= limits.closing_bytes,
            ),
        }
    }
}

/// The end, or nothing.
fn end_if(is_over: bool) -> Due
    ensures { result ≡ Rattle.wl_liveness.specs.Liveness.end_if is_over }
{
    if is_over { Due::End } else { Due::Nothing }
}
