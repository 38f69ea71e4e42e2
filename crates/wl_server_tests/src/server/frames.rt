//! What a client sends, as bytes.

use super::OPEN;
use std::alloc::{AllocError, Global};

const REQUEST: &[u8] = b"{\"id\":2,\"name\":\"db\",\"op\":\"request\"}";

/// The first byte of a message, or of its last frame.
const LAST: u8 = 128;

const TEXT: u8 = 1;

const BINARY: u8 = 2;

const CLOSE: u8 = 8;

const PING: u8 = 9;

/// What goes on with a message that has begun.
const MORE: u8 = 0;

/// Adds the frames of the words, one behind another.
pub fn add_frames(alloc: Global, frames: &mut Vec<u8>, words: &str) -> Result<(), AllocError> {
    for word in words.split(' ') {
        add_word(alloc, frames, word)?;
    }
    Ok(())
}

/// `begins` and `goes_on` are a message in two frames, and `bytes` one that isn't UTF-8.
fn add_word(alloc: Global, frames: &mut Vec<u8>, word: &str) -> Result<(), AllocError> {
    match word {
        "open" => add(frames, LAST | TEXT, OPEN),
        "begins" => add(frames, TEXT, &OPEN[..9]),
        "goes_on" => add(frames, LAST | MORE, &OPEN[9..]),
        "request" => add(frames, LAST | BINARY, REQUEST),
        "bytes" => add(frames, LAST | BINARY, b"\xff"),
        "bytes_as_text" => add(frames, LAST | TEXT, b"\xff"),
        "too_long" => add(frames, LAST | TEXT, &vec![in alloc; b' '; 65_537]?),
        // A text of two bytes without a mask.
        "unmasked" => frames.extend_from_slice(b"\x81\x02{}"),
        "ping" => add(frames, LAST | PING, b"?"),
        "pings" => add_pings(frames),
        "close" => add(frames, LAST | CLOSE, b""),
        _ => Ok(()),
    }
}

fn add_pings(frames: &mut Vec<u8>) -> Result<(), AllocError> {
    for _ in 0..1_000 {
        add(frames, LAST | PING, b"?")?;
    }
    Ok(())
}

/// Adds a frame with this first byte, masked with zeros.
fn add(frames: &mut Vec<u8>, head: u8, payload: &[u8]) -> Result<(), AllocError> {
    frames.push(head)?;
    if payload.len() < 126 {
        frames.push(128 | payload.len() as u8)?;
    } else {
        // 127 stands for a length of eight bytes.
        frames.push(128 | 127)?;
        frames.extend_from_slice(&(payload.len() as u64).to_be_bytes())?;
    }
    frames.extend_from_slice(&[0, 0, 0, 0])?;
    frames.extend_from_slice(payload)
}
