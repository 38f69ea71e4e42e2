//! How connections end, and that their agents then have ended: the next one of the origin finds `db` free.

const A_BROKEN_HANDSHAKE: &str = "\
serve http -> ServeEnd { answered: 0, fault: Some(Handshake) }
";

const A_DROPPED_STREAM_FREES_ITS_LOCKS: &str = "\
serve wide open request -> ServeEnd { answered: 2, fault: Some(Stream) }
open window https://a.test/ -> Ok(Some(2))
request 1 db -> Ok(2)
look 1 -> Granted
terminate 1 -> true
";

const A_MESSAGE_THAT_IS_TOO_LONG: &str = "\
serve wide open request too_long -> ServeEnd { answered: 2, fault: Some(TooLong) }
open window https://a.test/ -> Ok(Some(2))
request 1 db -> Ok(2)
look 1 -> Granted
terminate 1 -> true
";

/// A binary message is answered, as a fault.
const A_TEXT_THAT_IS_NOT_UTF8: &str = "\
serve wide open request bytes bytes_as_text -> ServeEnd { answered: 3, fault: Some(Stream) }
open window https://a.test/ -> Ok(Some(2))
request 1 db -> Ok(2)
look 1 -> Granted
terminate 1 -> true
";

const PINGS_AND_A_CLOSE: &str = "\
serve wide open request pings close -> ServeEnd { answered: 2, fault: None }
open window https://a.test/ -> Ok(Some(2))
request 1 db -> Ok(2)
look 1 -> Granted
terminate 1 -> true
";

const A_REPLY_THAT_NOBODY_TAKES: &str = "\
serve narrow open request -> ServeEnd { answered: 1, fault: Some(Stream) }
open window https://a.test/ -> Ok(Some(2))
request 1 db -> Ok(2)
look 1 -> Granted
terminate 1 -> true
";

const A_CLOSE_BEHIND_A_REPLY_THAT_NOBODY_TAKES: &str = "\
serve narrow open request open close -> ServeEnd { answered: 1, fault: None }
open window https://a.test/ -> Ok(Some(2))
request 1 db -> Ok(2)
look 1 -> Granted
terminate 1 -> true
";

const A_MESSAGE_IN_TWO_FRAMES: &str = "\
serve wide begins ping goes_on request close -> ServeEnd { answered: 2, fault: None }
open window https://a.test/ -> Ok(Some(2))
request 1 db -> Ok(2)
look 1 -> Granted
terminate 1 -> true
";

const A_FRAME_WITHOUT_A_MASK: &str = "\
serve wide open request unmasked -> ServeEnd { answered: 2, fault: Some(Stream) }
open window https://a.test/ -> Ok(Some(2))
request 1 db -> Ok(2)
look 1 -> Granted
terminate 1 -> true
";

/// Another client of the origin keeps its lock.
const A_CONNECTION_ENDS_ALONE: &str = "\
open window https://a.test/ -> Ok(Some(1))
request 1 other -> Ok(1)
serve wide open request -> ServeEnd { answered: 2, fault: Some(Stream) }
open window https://a.test/ -> Ok(Some(3))
request 2 db -> Ok(3)
look 2 -> Granted
terminate 2 -> true
look 1 -> Granted
serve wide open request close -> ServeEnd { answered: 2, fault: None }
open window https://a.test/ -> Ok(Some(5))
request 2 db -> Ok(5)
look 3 -> Granted
terminate 2 -> true
look 1 -> Granted
";

pub const LISTS: &[&str] = &[
    A_BROKEN_HANDSHAKE,
    A_DROPPED_STREAM_FREES_ITS_LOCKS,
    A_MESSAGE_THAT_IS_TOO_LONG,
    A_TEXT_THAT_IS_NOT_UTF8,
    PINGS_AND_A_CLOSE,
    A_REPLY_THAT_NOBODY_TAKES,
    A_CLOSE_BEHIND_A_REPLY_THAT_NOBODY_TAKES,
    A_MESSAGE_IN_TWO_FRAMES,
    A_FRAME_WITHOUT_A_MASK,
    A_CONNECTION_ENDS_ALONE,
];
