//! One scratch for many messages.

use super::messages::{add_labelled, add_reading};
use std::alloc::{AllocError, Global};
use wl_codec::{Body, Reading, Scratch, read_line_with, read_message_with};
use wl_types::Memory;

/// A long message and a half of it, and then more with the same scratch. Of two members of one name the last counts; a
/// number is at most the largest double.
pub const SCRATCH: &str = r#"long -> 5000 letters
half -> BadJson/json
{"id":2,"op":"p\u006fll"} -> 2 Poll
{"agent":"\u0062","id":3,"op":"close"} -> b: 3 Close
{"agent" -> BadJson/json
 -> BadJson/json
{"id":1,"op":"poll","x":1e309} -> BadJson/json
{"id":1,"op":"poll","x":[0,[-1e309]]} -> BadJson/json
{"id":1,"op":"poll","x":{"y":[],"z":1e309}} -> BadJson/json
{"id":1,"x":1e309,"op":"poll","x":0} -> BadJson/json
{"id":1,"op":"poll","x":[1e308,-1e308,1e-400,18446744073709551616,-9223372036854775809,-0]} -> 1 Poll
"#;

/// Adds what a text is. One that begins with its agent is read as a line; `long` and `half` mean a long message and a
/// half of it.
pub fn add_read(
    alloc: Global,
    scratch: &mut Scratch,
    came: &mut String,
    text: &str,
) -> Result<(), Memory> {
    if text == "long" || text == "half" {
        add_made(alloc, scratch, came, text, &escaped_request(alloc, 5000)?)
    } else if text.starts_with("{\"agent\"") {
        add_labelled(came, &read_line_with(alloc, text.as_bytes(), scratch)?)
    } else {
        add_message(alloc, scratch, came, text.as_bytes())
    }
}

fn add_made(
    alloc: Global,
    scratch: &mut Scratch,
    came: &mut String,
    text: &str,
    long: &[u8],
) -> Result<(), Memory> {
    if text == "long" {
        add_long(alloc, scratch, came, long)
    } else {
        add_message(alloc, scratch, came, &long[..long.len() / 2])
    }
}

fn add_message(
    alloc: Global,
    scratch: &mut Scratch,
    came: &mut String,
    text: &[u8],
) -> Result<(), Memory> {
    add_reading(came, &read_message_with(alloc, text, scratch)?)
}

fn add_long(
    alloc: Global,
    scratch: &mut Scratch,
    came: &mut String,
    long: &[u8],
) -> Result<(), Memory> {
    let is_read = is_request_of(&read_message_with(alloc, long, scratch)?, 5000);
    came.push_str(if is_read {
        "5000 letters"
    } else {
        "another message"
    })?;
    Ok(())
}

/// A request of a lock whose name is that many letters, each spelled as an escape.
fn escaped_request(alloc: Global, letters: usize) -> Result<Vec<u8>, AllocError> {
    let mut text = Vec::from_slice(alloc, b"{\"id\":1,\"op\":\"request\",\"name\":\"")?;
    for _ in 0..letters {
        text.extend_from_slice(b"\\u0061")?;
    }
    text.extend_from_slice(b"\"}")?;
    Ok(text)
}

fn is_request_of(reading: &Reading, letters: usize) -> bool {
    let Reading::Good(message) = reading else {
        return false;
    };
    let Body::Request(ask) = &message.body else {
        return false;
    };
    let name = ask.name.as_str().as_bytes();
    message.id == 1 && name.len() == letters && name.iter().all(|byte| *byte == b'a')
}
