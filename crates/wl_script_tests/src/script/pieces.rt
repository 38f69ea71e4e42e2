//! The same script in all kinds of pieces.

/// The pieces of the input play no part. There is one write a reply.
pub const PIECES: &str = "\
run three piece=1 -> Ok(3) Some(198) 3
run three piece=2 -> Ok(3) Some(198) 3
run three piece=3 -> Ok(3) Some(198) 3
run three piece=7 -> Ok(3) Some(198) 3
run three piece=5000 -> Ok(3) Some(198) 3
";

/// A writer may take a byte at a time.
pub const BYTES: &str = "\
run three most=1 -> Ok(3) Some(198) 198
";

/// What std reads and writes, and how many bytes are left to read.
pub const STREAMS: &str = "\
std nothing -> Ok(0) Some(0) 0
std / -> Ok(1) Some(66) 0
std abc/ -> Ok(1) Some(66) 0
std abc -> Ok(1) Some(66) 0
std a%//b/ -> Ok(3) Some(198) 0
";

/// Lines cross the edge of a read. A read takes 65,536 bytes: the LF of the first line comes before, at and behind its
/// edge.
pub const EDGES: &str = "\
run 65533y piece=100000 -> Ok(2) Some(132) 2
run 65533y piece=30000 -> Ok(2) Some(132) 2
run 65534y piece=100000 -> Ok(2) Some(132) 2
run 65534y piece=30000 -> Ok(2) Some(132) 2
run 65535y piece=100000 -> Ok(2) Some(132) 2
run 65535y piece=30000 -> Ok(2) Some(132) 2
run 65536y piece=100000 -> Ok(2) Some(132) 2
run 65536y piece=30000 -> Ok(2) Some(132) 2
";
