//! What is wrong with a message, of several faults the first.

use crate::lists::assert_came;
use std::process::Abort;
use wl_codec::{CodecFault, Member};

/// Options are read in the order of their names' letters, as Web IDL reads a dictionary.
pub const FAULTS: &str = r#"[] -> NotAnObject/json
7 -> NotAnObject/json
"id" -> NotAnObject/json
null -> NotAnObject/json
true -> NotAnObject/json
{"id":1} -> 1 BadOp/op
{"id":1,"op":"Poll"} -> 1 BadOp/op
{"id":1,"op":7} -> 1 BadOp/op
{"id":1,"op":"open"} -> 1 TypeError/url
{"id":1,"op":"open","kind":"page"} -> 1 TypeError/url
{"id":1,"op":"open","url":"https://a.test/","kind":"page"} -> 1 TypeError/kind
{"id":1,"op":"open","url":"https://a.test/","kind":null} -> 1 TypeError/kind
{"id":1,"op":"open","url":"https://a.test/","kind":"page","bucket":7} -> 1 TypeError/kind
{"id":1,"op":"open","url":7,"bucket":7} -> 1 TypeError/url
{"id":1,"op":"open","url":"https://a.test/","bucket":7} -> 1 TypeError/bucket
{"id":1,"op":"open","url":"https://a.test/","bucket":null} -> 1 TypeError/bucket
{"id":1,"op":"open","url":"https://a.test/","bucket":["inbox"]} -> 1 TypeError/bucket
{"id":1,"name":7,"op":"request","options":7} -> 1 TypeError/name
{"id":1,"name":"n","op":"request","options":[]} -> 1 TypeError/options
{"id":1,"name":"n","op":"request","options":{"mode":"x","ifAvailable":1}} -> 1 TypeError/ifAvailable
{"id":1,"name":"n","op":"request","options":{"ifAvailable":null}} -> 1 TypeError/ifAvailable
{"id":1,"name":"n","op":"request","options":{"signal":-1,"mode":"both"}} -> 1 TypeError/mode
{"id":1,"name":"n","op":"request","options":{"mode":null}} -> 1 TypeError/mode
{"id":1,"name":"n","op":"request","options":{"steal":1,"signal":1.0}} -> 1 TypeError/signal
{"id":1,"name":"n","op":"request","options":{"signal":null}} -> 1 TypeError/signal
{"id":1,"name":"n","op":"request","options":{"steal":"true"}} -> 1 TypeError/steal
{"id":1,"name":"n","op":"request","options":{"steal":null}} -> 1 TypeError/steal
{"id":1,"op":"release","request":9007199254740992} -> 1 TypeError/request
{"id":1,"op":"abort","reason":"x"} -> 1 TypeError/signal
{"id":1,"op":"abort","signal":1,"reason":"aborterror"} -> 1 TypeError/reason
{"id":1,"op":"abort","signal":1,"reason":"AbortCode"} -> 1 TypeError/reason
{"id":1,"op":"abort","signal":1,"reason":null} -> 1 TypeError/reason
{"id":1,"op":"abort","reason":65536,"signal":1} -> 1 TypeError/reason
{"id":1,"op":"abort","signal":1,"reason":65543} -> 1 TypeError/reason
{"id":1,"op":"abort","signal":1,"reason":9007199254740991} -> 1 TypeError/reason
{"id":1,"op":"abort","signal":1,"reason":18446744073709551623} -> 1 TypeError/reason
{"id":1,"op":"abort","signal":1,"reason":-1} -> 1 TypeError/reason
{"id":1,"op":"abort","signal":1,"reason":-0} -> 1 TypeError/reason
{"id":1,"op":"abort","signal":1,"reason":7.0} -> 1 TypeError/reason
{"id":1,"op":"abort","signal":1,"reason":7e0} -> 1 TypeError/reason
{"id":1,"op":"abort","signal":1,"reason":"7"} -> 1 TypeError/reason
{"id":1,"op":"abort","signal":1,"reason":true} -> 1 TypeError/reason
{"id":1,"op":"abort","signal":1,"reason":[7]} -> 1 TypeError/reason
{"id":1,"op":"abort","signal":1,"reason":7,"reason":"7"} -> 1 TypeError/reason
{"id":1,"op":"abort","reason":65536} -> 1 TypeError/signal
{"id":1,"op":"active"} -> 1 TypeError/active
{"id":1,"op":"active","active":1} -> 1 TypeError/active
"#;

/// Ids are whole numbers, from 0 to 9007199254740991.
pub const IDS: &str = r#"{"id":0,"op":"poll"} -> 0 Poll
{"id":9007199254740991,"op":"poll"} -> 9007199254740991 Poll
{"id":9007199254740992,"op":"query"} -> BadId/id
{"id":18446744073709551616,"op":"query"} -> BadId/id
{"id":-1,"op":"query"} -> BadId/id
{"id":-0,"op":"query"} -> BadId/id
{"id":1.0,"op":"query"} -> BadId/id
{"id":1e0,"op":"query"} -> BadId/id
{"id":"1","op":"query"} -> BadId/id
{"id":null,"op":"query"} -> BadId/id
{"op":"query"} -> BadId/id
{} -> BadId/id
"#;

/// A line names its agent.
pub const LINES: &str = r#"{"agent":"a","id":7,"op":"poll"} -> a: 7 Poll
[] -> NotAnObject/json
{"agent":"a","op":"poll"} -> BadId/id
{"id":-1} -> BadId/id
{"id":3,"op":"poll"} -> 3 TypeError/agent
{"id":3,"op":7,"agent":7} -> 3 TypeError/agent
{"agent":"a","id":4} -> 4 BadOp/op
{"agent":"a","id":5,"op":"request"} -> 5 TypeError/name
{"agent":"a","id":6,"name":"n","op":"request","options":{"mode":"both"}} -> 6 TypeError/mode
"#;

const RULES: &[(CodecFault, &str)] = &[
    (CodecFault::BadJson, "BadJson/json"),
    (CodecFault::NotAnObject, "NotAnObject/json"),
    (CodecFault::BadId, "BadId/id"),
    (CodecFault::BadOp, "BadOp/op"),
    (CodecFault::TypeError(Member::Agent), "TypeError/agent"),
    (CodecFault::TypeError(Member::Url), "TypeError/url"),
    (CodecFault::TypeError(Member::Kind), "TypeError/kind"),
    (CodecFault::TypeError(Member::Bucket), "TypeError/bucket"),
    (CodecFault::TypeError(Member::Name), "TypeError/name"),
    (CodecFault::TypeError(Member::Options), "TypeError/options"),
    (
        CodecFault::TypeError(Member::IfAvailable),
        "TypeError/ifAvailable",
    ),
    (CodecFault::TypeError(Member::Mode), "TypeError/mode"),
    (CodecFault::TypeError(Member::Signal), "TypeError/signal"),
    (CodecFault::TypeError(Member::Steal), "TypeError/steal"),
    (CodecFault::TypeError(Member::Request), "TypeError/request"),
    (CodecFault::TypeError(Member::Reason), "TypeError/reason"),
    (CodecFault::TypeError(Member::Active), "TypeError/active"),
];

/// Whether the fault has this name and this rule, which is a member's word.
fn is_named(fault: &CodecFault, name: &str, rule: &str) -> bool {
    let word = match fault {
        CodecFault::TypeError(member) => member.word(),
        _ => rule,
    };
    fault.name() == name && fault.rule() == rule && word == rule
}

/// The first text that isn't that of its fault.
fn find_misnamed() -> Option<&'static str> {
    for (fault, text) in RULES {
        let (name, rule) = text.split_once('/').unwrap_or((*text, ""));
        if !is_named(fault, name, rule) {
            return Some(*text);
        }
    }
    None
}

/// Wants each fault to have its name and its rule.
pub fn assert_rules<R: Abort>(test: &R) {
    assert_came(test, find_misnamed().unwrap_or("none"), "none");
}
