//! How connections end, and why serving and relaying end early.

use std::alloc::AllocError;
use thiserror::Error;

/// Why a connection ended otherwise than by a close frame of its peer.
#[derive(Clone, Copy, Debug, PartialEq, Eq, Drop)]
pub enum ServeFault {
    /// The peer asked for no WebSocket.
    Handshake,
    /// The stream ended or failed, or the peer broke the protocol.
    Stream,
    /// A message is over 65,536 bytes.
    TooLong,
    /// A growth was refused.
    Memory,
}

/// How a connection ended.
#[derive(Clone, Copy, Debug, PartialEq, Eq, Drop)]
pub struct ServeEnd {
    /// The replies that were sent. The number stays at its greatest value.
    pub answered: u64,
    /// None where the peer sent a close frame.
    pub fault: Option<ServeFault>,
}

/// What was served.
#[derive(Clone, Copy, Debug, PartialEq, Eq, Drop)]
pub struct Served {
    /// The connections that ended.
    pub connections: u64,
    /// Those of them that ended with a fault.
    pub failed: u64,
}

/// Why serving ended early. Each carries the number of connections that ended, after those that ran were joined.
#[derive(Clone, Copy, Debug, PartialEq, Eq, Drop, Error)]
pub enum ListenFault {
    /// No further connection could be accepted.
    #[error("cannot accept after connection {0}")]
    Accept(u64),
    /// No thread could be started for a connection.
    #[error("cannot start a thread after connection {0}")]
    Thread(u64),
    /// A growth was refused, or the system had no memory for a connection.
    #[error("out of memory after connection {0}")]
    Memory(u64),
}

/// Why relaying ended early. Those that carry a number carry that of the replies written whole.
#[derive(Clone, Copy, Debug, PartialEq, Eq, Drop)]
pub enum RelayFault {
    /// The server did not take up the connection.
    Handshake,
    /// The connection ended or failed, or gave a message that isn't text, while a reply was owed.
    Ended(u64),
    /// The reader failed.
    Read(u64),
    /// The writer failed.
    Write(u64),
    /// A line has more than 65,536 bytes.
    LineTooLong(u64),
    /// A growth was refused.
    Memory,
}

impl From<AllocError> for ServeFault {
    fn from(_refused: AllocError) -> ServeFault {
        ServeFault::Memory
    }
}
