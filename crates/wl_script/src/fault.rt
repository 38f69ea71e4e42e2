//! Why a run ended early.

use thiserror::Error;

/// Why a run ended before the end of its input. Each carries the number of lines that were answered whole.
///
/// But for `Write`, nothing was written beyond the replies to those lines.
#[derive(Clone, Copy, Debug, PartialEq, Eq, Drop, Error)]
pub enum ScriptFault {
    /// A growth was refused.
    #[error("out of memory after line {0}")]
    Memory(u64),
    /// The reader failed.
    #[error("cannot read after line {0}")]
    Read(u64),
    /// The writer failed, or took no byte. It may have taken a part of the next reply, but not all of it.
    #[error("cannot write after line {0}")]
    Write(u64),
    /// The next line has more bytes than the limit. Its end may not have been read.
    #[error("line too long after line {0}")]
    LineTooLong(u64),
    /// As many reads were made as the limit says, and the input is not at its end.
    #[error("too many reads after line {0}")]
    TooManyTurns(u64),
}
