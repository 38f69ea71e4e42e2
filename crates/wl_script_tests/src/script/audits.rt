//! What an audit writes.

/// At one origin an agent opens, and is granted a lock. In a bucket of it, and at another origin, an agent opens.
pub const AGENTS: &[u8] = b"{\"agent\":\"z\",\"id\":1,\"op\":\"open\",\"url\":\"https://z.test/\"}
{\"agent\":\"a\",\"id\":2,\"op\":\"open\",\"url\":\"https://a.test/\"}
{\"agent\":\"a\",\"id\":3,\"name\":\"db\",\"op\":\"request\"}
{\"agent\":\"b\",\"bucket\":\"inbox\",\"id\":4,\"op\":\"open\",\"url\":\"https://a.test/\"}
";

/// The lock was asked for and taken. A line has 53 bytes, and 17 more where it names a bucket.
pub const REPORT: &str = "{\"entries\":3,\"legal\":true,\"origin\":\"https://a.test\"}
{\"bucket\":\"inbox\",\"entries\":1,\"legal\":true,\"origin\":\"https://a.test\"}
{\"entries\":1,\"legal\":true,\"origin\":\"https://z.test\"}
";

/// Each manager has a line. None are written before the script's end was read; a failed write says how many managers
/// were.
pub const AUDITS: &str = "\
audit agents piece=7 -> Ok(3) Some(176) 3
audit agents piece=7 fails -> Err(Read(4)) Some(0) 0
audit agents piece=7 room=60 -> Err(Write(1)) Some(60) 3
audit agents piece=7 room=130 -> Err(Write(2)) Some(130) 4
";
