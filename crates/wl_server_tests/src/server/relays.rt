//! How relaying ends, over loopback.

const LINES_ARE_RELAYED_TO_A_SERVER: &str = "\
relay whole window -> (Ok(Served { connections: 1, failed: 0 }), Ok(6))
{\"id\":1,\"notices\":[],\"ok\":{\"client\":\"client-1\"}}
{\"id\":2,\"notices\":[{\"phase\":\"granted\",\"request\":1}],\"ok\":{\"request\":1}}
{\"id\":3,\"notices\":[],\"ok\":{\"held\":[{\"clientId\":\"client-1\",\"mode\":\"exclusive\",\"name\":\"db\"}],\"pending\":[]}}
{\"id\":4,\"notices\":[],\"ok\":{}}
{\"id\":5,\"notices\":[],\"ok\":{\"release\":\"released\"}}
{\"id\":6,\"notices\":[],\"ok\":{\"held\":[],\"pending\":[]}}
";

const A_BROKEN_CONNECTION_ENDS_ALONE: &str = "\
relay beside open -> (Ok(Served { connections: 2, failed: 1 }), Ok(1))
{\"id\":1,\"notices\":[],\"ok\":{\"client\":\"client-1\"}}
";

const AN_EMPTY_INPUT: &str = "\
relay whole -> (Ok(Served { connections: 1, failed: 0 }), Ok(0))
";

const A_LAST_LINE_WITHOUT_ITS_END: &str = "\
relay whole open -> (Ok(Served { connections: 1, failed: 0 }), Ok(1))
{\"id\":1,\"notices\":[],\"ok\":{\"client\":\"client-1\"}}
";

const A_LINE_THAT_IS_NOT_UTF8: &str = "\
relay whole open lf bytes lf -> (Ok(Served { connections: 1, failed: 0 }), Ok(2))
{\"id\":1,\"notices\":[],\"ok\":{\"client\":\"client-1\"}}
{\"error\":{\"name\":\"BadJson\",\"rule\":\"json\"},\"id\":null,\"notices\":[]}
";

const A_LINE_AS_LONG_AS_MAY_BE: &str = "\
relay whole open lf 65536 lf -> (Ok(Served { connections: 1, failed: 0 }), Ok(2))
{\"id\":1,\"notices\":[],\"ok\":{\"client\":\"client-1\"}}
{\"error\":{\"name\":\"BadJson\",\"rule\":\"json\"},\"id\":null,\"notices\":[]}
";

const A_LINE_THAT_IS_TOO_LONG: &str = "\
relay whole open lf 65537 lf -> (Ok(Served { connections: 1, failed: 1 }), Err(LineTooLong(1)))
{\"id\":1,\"notices\":[],\"ok\":{\"client\":\"client-1\"}}
";

const A_READER_THAT_FAILS: &str = "\
relay failing open lf 3 lf -> (Ok(Served { connections: 1, failed: 1 }), Err(Read(2)))
{\"id\":1,\"notices\":[],\"ok\":{\"client\":\"client-1\"}}
{\"error\":{\"name\":\"BadJson\",\"rule\":\"json\"},\"id\":null,\"notices\":[]}
";

const A_WRITER_THAT_FAILS: &str = "\
relay stuck open lf 3 lf -> (Ok(Served { connections: 1, failed: 1 }), Err(Write(1)))
{\"id\":1,\"notices\":[],\"ok\":{\"client\":\"client-1\"}}
";

/// What a host that is no such server did, and how relaying to it ends.
const OTHER_HOSTS: &str = "\
relay_to leaving -> (true, Err(Ended(2)))
relay_to binary -> (true, Err(Ended(2)))
relay_to page -> (true, Err(Handshake))
relay_to_nobody -> Err(Handshake)
";

/// The gate hears of the first connection, of its replies 1 and 2, and then of the second and its reply.
const A_GATE_HEARS_OF_EACH_CONNECTION_AND_OF_EACH_REPLY: &str = "\
serve_gated -> (Ok(Served { connections: 2, failed: 0 }), (Ok(2), Ok(1)), [1, 1, 1, 1, 2, 2, 2, 1, 0])
";

/// The first connection waits behind its first reply until the second has its own.
const A_CONNECTION_GOES_ON_WHILE_ANOTHER_WAITS: &str = "\
serve_waiting -> (Ok(Served { connections: 2, failed: 0 }), (Ok(1), Ok(1)), true)
";

/// Somebody asks for the lock as soon as it is granted, and has it once the stream has ended.
const A_STREAM_THAT_ENDS_HANDS_ITS_LOCK_ON: &str = "\
serve_dropped -> (Ok(Served { connections: 1, failed: 1 }), Some(((2, Pending), Granted)))
";

/// None of the 65 sends a close frame.
const ONE_MORE_THAN_THERE_IS_ROOM_FOR_WAITS: &str = "\
serve_crowd 65 -> (Ok(Served { connections: 65, failed: 65 }), true)
";

const A_LISTENER_THAT_ACCEPTS_NOTHING: &str = "\
serve_nobody 3 -> Err(Accept(0))
";

pub const LISTS: &[&str] = &[
    LINES_ARE_RELAYED_TO_A_SERVER,
    A_BROKEN_CONNECTION_ENDS_ALONE,
    AN_EMPTY_INPUT,
    A_LAST_LINE_WITHOUT_ITS_END,
    A_LINE_THAT_IS_NOT_UTF8,
    A_LINE_AS_LONG_AS_MAY_BE,
    A_LINE_THAT_IS_TOO_LONG,
    A_READER_THAT_FAILS,
    A_WRITER_THAT_FAILS,
    OTHER_HOSTS,
    A_GATE_HEARS_OF_EACH_CONNECTION_AND_OF_EACH_REPLY,
    A_CONNECTION_GOES_ON_WHILE_ANOTHER_WAITS,
    A_STREAM_THAT_ENDS_HANDS_ITS_LOCK_ON,
    ONE_MORE_THAN_THERE_IS_ROOM_FOR_WAITS,
    A_LISTENER_THAT_ACCEPTS_NOTHING,
];
