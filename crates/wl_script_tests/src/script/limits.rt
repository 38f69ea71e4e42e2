//! Lines at and over their limit, and reads.

/// A line may be as long as the limit.
pub const LONG_LINES: &str = "\
run abcdefgh/ piece=1 reads=1000 -> Ok(1) Some(66) 1
run abcdefgh/ piece=5 reads=1000 -> Ok(1) Some(66) 1
run abcdefgh/ piece=100 reads=1000 -> Ok(1) Some(66) 1
run abcdefgh piece=1 reads=1000 -> Ok(1) Some(66) 1
run abcdefgh piece=5 reads=1000 -> Ok(1) Some(66) 1
run abcdefgh piece=100 reads=1000 -> Ok(1) Some(66) 1
run abcdefghi/ piece=1 reads=1000 -> Err(LineTooLong(0)) Some(0) 0
run abcdefghi/ piece=5 reads=1000 -> Err(LineTooLong(0)) Some(0) 0
run abcdefghi/ piece=100 reads=1000 -> Err(LineTooLong(0)) Some(0) 0
run abcdefghi piece=1 reads=1000 -> Err(LineTooLong(0)) Some(0) 0
run abcdefghi piece=5 reads=1000 -> Err(LineTooLong(0)) Some(0) 0
run abcdefghi piece=100 reads=1000 -> Err(LineTooLong(0)) Some(0) 0
run ab//abcdefghi/ab/ piece=1 reads=1000 -> Err(LineTooLong(2)) Some(132) 2
run ab//abcdefghi/ab/ piece=5 reads=1000 -> Err(LineTooLong(2)) Some(132) 2
run ab//abcdefghi/ab/ piece=100 reads=1000 -> Err(LineTooLong(2)) Some(132) 2
";

/// A line is too long before its end was read: the ninth byte is the last before the reader fails.
pub const TOO_LONG_EARLY: &str = "\
run abcdefghi piece=3 fails reads=1000 -> Err(LineTooLong(0)) Some(0) 0
";

/// A line without limits of its own has 65536 bytes.
pub const OWN_LIMIT: &str = "\
run 65536 piece=100000 -> Ok(1) Some(66) 1
run 65537 piece=100000 -> Err(LineTooLong(0)) Some(0) 0
";

/// Eighteen bytes are read, one a read, and then the end. The read that finds the end counts.
pub const TURNS: &str = "\
run three piece=1 reads=0 -> Err(TooManyTurns(0)) Some(0) 0
run three piece=1 reads=8 -> Err(TooManyTurns(0)) Some(0) 0
run three piece=1 reads=9 -> Err(TooManyTurns(1)) Some(66) 1
run three piece=1 reads=18 -> Err(TooManyTurns(2)) Some(132) 2
run three piece=1 reads=19 -> Ok(3) Some(198) 3
";
