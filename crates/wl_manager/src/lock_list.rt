//! What a manager lists of its locks.

use wl_types::{Mode, Name};

/// A lock that is held, or a request that waits.
#[derive(Debug, Drop)]
pub struct LockRow {
    /// The number of the agent whose it is. `client_text` gives its `clientId`.
    pub client: u64,
    /// The number of the request.
    pub request: u64,
    pub name: Name,
    pub mode: Mode,
    /// The milliseconds since it was asked for, by the clock that the manager was made with.
    pub since_asked: u64,
    /// The milliseconds since it was granted, of a lock; a request that waits has none.
    pub since_granted: Option<u64>,
}

/// What is held and what waits in a manager, as far as it was asked for.
#[derive(Debug, Drop)]
pub struct LockList {
    /// The locks, in the order in which they were granted.
    pub held: Vec<LockRow>,
    /// The requests that wait, each name's in the order of its queue.
    pub pending: Vec<LockRow>,
    /// How many locks and requests there are beside these.
    pub left_out: u64,
}
