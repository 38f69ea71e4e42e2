//! What a call answers.

ghost use Rattle.std.specs.Prelude.{◌≡◌};
ghost use Rattle.wl_c.specs.Codes.{code_of as number_of};

/// Why a call did nothing, or the last thing that a world did.
#[derive(Clone, Copy, Debug, PartialEq, Eq, Drop)]
pub enum Fault {
    /// A growth was refused. What the world had is gone.
    Memory,
    /// A growth was refused before.
    Spent,
    /// The world keeps no books.
    NoBooks,
    /// A pointer is null.
    Null,
    /// The line has more than 65,536 bytes.
    TooLong,
    /// The line has an LF, and so is more than one line.
    LineFeed,
}

/// The number by which C knows what became of a call: 0 where it did what it is for.
pub fn code_of(outcome: Result<(), Fault>) -> i32
    ensures { result ≡ number_of outcome }
{
    match outcome {
        Ok(()) => 0,
        Err(Fault::Memory) => 1,
        Err(Fault::Spent) => 2,
        Err(Fault::NoBooks) => 3,
        Err(Fault::Null) => 4,
        Err(Fault::TooLong) => 5,
        Err(Fault::LineFeed) => 6,
    }
}
