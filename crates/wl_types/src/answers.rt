//! What a take, a release and an abort answer where nothing refuses them.

/// The answer to a take, which marks a lock as one whose agent was told of the grant.
#[derive(Clone, Copy, Debug, PartialEq, Eq, Drop)]
pub enum TakeAnswer {
    /// The lock was held and untaken, and is taken now.
    Taken,
    /// There is no untaken lock of that number. Nothing changed.
    NotGranted,
}

/// The answer to a release.
#[derive(Clone, Copy, Debug, PartialEq, Eq, Drop)]
pub enum ReleaseAnswer {
    /// The agent held the lock, taken or not, and holds it no more.
    Released,
    /// The agent holds no lock of that number: it is unknown, another agent's, pending or ended. Nothing changed.
    NotHeld,
}

/// The answer to an abort of a signal.
#[derive(Clone, Copy, Debug, PartialEq, Eq, Drop)]
pub enum AbortAnswer {
    /// The signal has its reason now, and what it could end has ended.
    Done,
    /// The signal had a reason before, and keeps it. Nothing changed.
    AlreadyAborted,
}
