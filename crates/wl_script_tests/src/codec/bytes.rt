//! Bytes that are read as a message and as a line.

use super::messages::{add_line, add_message};
use crate::lists::part;
use std::alloc::{AllocError, Global};
use wl_types::Memory;

const BROKEN: [&[u8]; 11] = [
    b"",
    b"\n",
    b"\xff",
    b"{agent\":\"v\",\"id\":1,\"op\":\"poll\"}",
    b"{\"id\":1,\"op\":\"poll\",}",
    b"{\"id\":01,\"op\":\"poll\"}",
    b"{\"id\":1,\"op\":\"poll\"} x",
    b"{\"id\":1,\"op\":\"poll\",\"x\":\"\xff\"}",
    b"{\"id\":1,\"op\":\"poll\",\"x\":\"\\ud800\"}",
    b"{\"id\":1,\"op\":\"poll\",\"x\":1e400}",
    b"\xef\xbb\xbf{\"id\":1,\"op\":\"poll\"}",
];

/// Those bytes by their place: what is no JSON text is refused.
pub const NO_JSON: &str = "\
broken 0 -> BadJson/json, BadJson/json
broken 1 -> BadJson/json, BadJson/json
broken 2 -> BadJson/json, BadJson/json
broken 3 -> BadJson/json, BadJson/json
broken 4 -> BadJson/json, BadJson/json
broken 5 -> BadJson/json, BadJson/json
broken 6 -> BadJson/json, BadJson/json
broken 7 -> BadJson/json, BadJson/json
broken 8 -> BadJson/json, BadJson/json
broken 9 -> BadJson/json, BadJson/json
broken 10 -> BadJson/json, BadJson/json
";

/// A message nests at most 127 deep. As a line it names no agent.
pub const NESTED: &str = "\
nested 100 -> 1 Poll, 1 TypeError/agent
nested 126 -> 1 Poll, 1 TypeError/agent
nested 127 -> BadJson/json, BadJson/json
nested 200 -> BadJson/json, BadJson/json
";

/// Space plays no part.
pub const SPACED: &str = "\
spaced -> 7 Poll, 7 TypeError/agent
";

/// Adds what the bytes are that a call names: as a message, and as a line.
pub fn add_both_of(alloc: Global, came: &mut String, call: &str) -> Result<(), Memory> {
    let (word, behind) = part(call);
    let number = behind.parse::<usize>().unwrap_or(0);
    match word {
        "broken" => add_both(alloc, came, BROKEN.get(number).copied().unwrap_or(b"{}")),
        "nested" => add_both(alloc, came, &nest(alloc, number)?),
        _ => add_both(alloc, came, b" {\"op\":\"poll\",\r\n\t\"id\":7} "),
    }
}

fn add_both(alloc: Global, came: &mut String, text: &[u8]) -> Result<(), Memory> {
    add_message(alloc, came, text)?;
    came.push_str(", ")?;
    add_line(alloc, came, text)
}

/// A message to poll with arrays in it that nest so deep.
fn nest(alloc: Global, levels: usize) -> Result<Vec<u8>, AllocError> {
    let mut text = Vec::from_slice(alloc, b"{\"id\":1,\"op\":\"poll\",\"x\":")?;
    for _ in 0..levels {
        text.push(b'[')?;
    }
    for _ in 0..levels {
        text.push(b']')?;
    }
    text.push(b'}')?;
    Ok(text)
}
