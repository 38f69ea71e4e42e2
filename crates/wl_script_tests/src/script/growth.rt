//! Each growth refused in turn.

use super::ends::plain;
use std::test::Fail;
use wl_script::ScriptFault;
use wl_test_support::fail_refused;

const SCRIPT: &[u8] = b"{\"agent\":\"a\",\"id\":1,\"op\":\"open\",\"url\":\"https://a.test/\"}
{\"agent\":\"a\",\"id\":2,\"name\":\"db\",\"op\":\"request\"}
";

const REPLIES: &str = "{\"id\":1,\"notices\":[],\"ok\":{\"client\":\"client-1\"}}
{\"id\":2,\"notices\":[{\"phase\":\"granted\",\"request\":1}],\"ok\":{\"request\":1}}
";

/// Where the replies end.
const ENDS: [usize; 3] = [0, 49, 121];

/// A run that is refused memory says how many lines were answered, and just their replies are written.
fn try_run(rt: &HostRuntime) -> Result<(), Fail> {
    let ended = plain(SCRIPT, 100).ends(rt, REPLIES)?;
    match ended.result {
        Ok(2) if ended.written == Some(121) => Ok(()),
        Err(ScriptFault::Memory(lines)) => fail_refused(
            ended.written.is_some() && ended.written == ENDS.get(lines as usize).copied(),
        ),
        _ => fail_refused(false),
    }
}

const AUDIT: &str = "{\"entries\":3,\"legal\":true,\"origin\":\"https://a.test\"}\n";

/// An audit that is refused memory says how many lines were done, and nothing is written.
fn try_audit(rt: &HostRuntime) -> Result<(), Fail> {
    let ended = plain(SCRIPT, 100).audit_ends(rt, AUDIT)?;
    match ended.result {
        Ok(1) if ended.written == Some(AUDIT.len()) => Ok(()),
        Err(ScriptFault::Memory(lines)) => fail_refused(ended.written == Some(0) && lines <= 2),
        _ => fail_refused(false),
    }
}

#[test]
fn a_refused_growth_says_what_was_answered(rt: HostRuntime) -> Result<(), Fail> {
    try_run(&rt)?;
    try_audit(&rt)
}
