//! How much a run takes.

/// How much of its input a run takes before it gives up.
#[derive(Clone, Copy, Debug, PartialEq, Eq, Drop)]
pub struct Limits {
    /// The most bytes of a line, without its LF.
    pub line: u64,
    /// The most reads. The one that finds the end of the input counts too.
    pub turns: u64,
}
