//! How far a connection is, by lists of calls: `open`, `hear`, `ping` and `close` at a time, `drop` of so many bytes,
//! `spare` of so many milliseconds, and `due` at a time, with 30 seconds to a ping.

use crate::lists::{Scene, assert_lists, word};
use std::alloc::Global;
use std::sync::Wait;
use std::test::Fail;
use wl_liveness::{Limits, Liveness};

const LISTS: &[&str] = &[
    "due 9999 -> Nothing
hear 9999 -> Handshake { since: 0 }
due 10000 -> End
spare 5000 -> Handshake { since: 5000 }
due 14999 -> Nothing
due 15000 -> End
",
    "open 1000 -> Open { heard: 1000, pinged: None }
due 30999 -> Nothing
due 31000 -> Ping
ping 31000 -> Open { heard: 1000, pinged: Some(31000) }
due 60999 -> Nothing
due 61000 -> End
hear 61000 -> Open { heard: 61000, pinged: None }
due 90999 -> Nothing
due 91000 -> Ping
due 5 -> Nothing
spare 90000 -> Open { heard: 151000, pinged: None }
due 180999 -> Nothing
due 181000 -> Ping
spare 18446744073709551615 -> Open { heard: 18446744073709551615, pinged: None }
",
    // Nobody is ended who wasn't pinged, nor before there were 15 seconds to answer.
    "open 0 -> Open { heard: 0, pinged: None }
due 60000 -> Ping
ping 61000 -> Open { heard: 0, pinged: Some(61000) }
due 75999 -> Nothing
due 76000 -> End
spare 10000 -> Open { heard: 10000, pinged: Some(71000) }
due 85999 -> Nothing
due 86000 -> End
spare 18446744073709551615 -> Open { heard: 18446744073709551615, pinged: Some(18446744073709551615) }
",
    "open 0 -> Open { heard: 0, pinged: None }
due 60000 -> Ping
close 1000 -> Closing { since: 1000, dropped: 0 }
close 2000 -> Closing { since: 1000, dropped: 0 }
hear 2000 -> Closing { since: 1000, dropped: 0 }
due 2999 -> Nothing
due 3000 -> End
spare 1000 -> Closing { since: 2000, dropped: 0 }
due 3999 -> Nothing
due 4000 -> End
",
    "close 0 -> Closing { since: 0, dropped: 0 }
drop 65535 -> Closing { since: 0, dropped: 65535 }
due 1 -> Nothing
ping 1 -> Closing { since: 0, dropped: 65535 }
drop 1 -> Closing { since: 0, dropped: 65536 }
due 1 -> End
drop 18446744073709551615 -> Closing { since: 0, dropped: 18446744073709551615 }
",
];

/// A connection.
#[derive(Drop)]
struct Connection {
    liveness: Liveness,
    limits: Limits,
}

impl Scene for Connection {
    fn new(_alloc: Global) -> Connection {
        Connection {
            liveness: Liveness::new(0),
            limits: Limits::for_idle(30),
        }
    }

    fn call<R: Wait>(&mut self, _rt: &R, call: &str, came: &mut String) -> Result<(), Fail> {
        let number = word(call, 1).parse::<u64>().unwrap_or(0);
        match word(call, 0) {
            "open" => self.liveness.open(number),
            "hear" => self.liveness.hear(number),
            "ping" => self.liveness.ping(number),
            "close" => self.liveness.close(number),
            "drop" => self.liveness.drop_bytes(number),
            "spare" => self.liveness.spare(number),
            _ => {
                write!(came, "{:?}", self.liveness.due(number, &self.limits))?;
                return Ok(());
            }
        }
        write!(came, "{:?}", self.liveness)?;
        Ok(())
    }
}

#[test]
fn connections_do_the_lists(rt: HostRuntime) -> Result<(), Fail> {
    assert_lists::<Connection, _>(&rt, rt.alloc(), LISTS)
}
