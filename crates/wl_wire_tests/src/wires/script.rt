//! A stream in memory, by words of what it gives and takes, and the frames that left by it.

use std::alloc::{AllocError, Global};
use std::collections::VecDeque;
use std::io::{ErrorKind, Read, Write};
use std::{io, str};

const TARGET: &str = "/?origin=https%3A%2F%2Fa.test";

const FIELDS: &[u8] =
    b"Host: a\r\nUpgrade: websocket\r\nConnection: Upgrade\r\nSec-WebSocket-Version: 13\r\nSec-WebSocket-Key: dGhlIHNhbXBsZSBub25jZQ==\r\n";

const PUSH: &[u8] = b"Sec-WebSocket-Protocol: weblocks.push\r\n";

/// A stream that gives and takes what it is told to.
#[derive(Drop)]
pub struct Script {
    reads: VecDeque<Vec<u8>>,
    writes: VecDeque<usize>,
    pub written: Vec<u8>,
}

impl Read for Script {
    fn read(&mut self, buf: &mut [u8]) -> io::Result<usize> {
        let Some(mut piece) = self.reads.pop_front() else {
            return Err(io::Error::from(ErrorKind::WouldBlock));
        };
        if piece.is_empty() {
            return Err(io::Error::from(ErrorKind::WouldBlock));
        }
        let count = piece.len().min(buf.len());
        buf[..count].copy_from_slice(&piece[..count]);
        if count < piece.len() {
            piece.drain(..count);
            self.reads.push_front(piece)?;
        }
        Ok(count)
    }
}

impl Write for Script {
    fn write(&mut self, buf: &[u8]) -> io::Result<usize> {
        let count = match self.writes.pop_front() {
            Some(0) => return Err(io::Error::from(ErrorKind::WouldBlock)),
            Some(count) => count.min(buf.len()),
            None => buf.len(),
        };
        self.written.extend_from_slice(&buf[..count])?;
        Ok(count)
    }

    fn flush(&mut self) -> io::Result<()> {
        Ok(())
    }
}

/// A stream that gives what these words say, a read each, and takes what those say.
pub fn script_of(alloc: Global, reads: &str, writes: &str) -> Result<Script, AllocError> {
    Ok(Script {
        reads: reads_of(alloc, reads)?,
        writes: writes_of(alloc, writes)?,
        written: Vec::new(alloc),
    })
}

/// Adds the frames behind the handshake's answer.
pub fn show_frames(written: &[u8], came: &mut String) -> Result<(), AllocError> {
    let mut rest = written;
    for at in 0..written.len() {
        if written[at..].starts_with(b"\r\n\r\n") {
            rest = &written[at + 4..];
            break;
        }
    }
    for _ in 0..written.len() {
        let [kind, length, body @ ..] = rest else {
            break;
        };
        let length = *length as usize;
        if length > body.len() {
            return came.push_str(" half");
        }
        show_frame(*kind, &body[..length], came)?;
        rest = &body[length..];
    }
    Ok(())
}

fn show_frame(kind: u8, body: &[u8], came: &mut String) -> Result<(), AllocError> {
    match kind {
        0x81 => write!(came, " {}", str::from_utf8(body).unwrap_or("?")),
        0x88 => match body {
            [high, low, ..] => write!(came, " closed {}", u32::from(*high) * 256 + u32::from(*low)),
            _ => write!(came, " closed"),
        },
        0x89 => write!(came, " ping"),
        0x8a => write!(came, " pong"),
        _ => write!(came, " {kind}"),
    }
}

fn writes_of(alloc: Global, words: &str) -> Result<VecDeque<usize>, AllocError> {
    // The answer to the handshake leaves whole.
    let mut writes = VecDeque::new(alloc);
    writes.push_back(usize::MAX)?;
    for word in words.split(' ') {
        if let Ok(count) = word.parse::<usize>() {
            writes.push_back(count)?;
        }
    }
    Ok(writes)
}

fn reads_of(alloc: Global, words: &str) -> Result<VecDeque<Vec<u8>>, AllocError> {
    let mut reads = VecDeque::new(alloc);
    for word in words.split(' ') {
        let mut piece = Vec::new(alloc);
        add_piece(alloc, &mut piece, word)?;
        reads.push_back(piece)?;
    }
    Ok(reads)
}

fn add_piece(alloc: Global, piece: &mut Vec<u8>, word: &str) -> Result<(), AllocError> {
    match word {
        "hello" => {
            begin(piece, TARGET)?;
            piece.extend_from_slice(b"\r\n")
        }
        "pushed" => {
            begin(piece, TARGET)?;
            piece.extend_from_slice(PUSH)?;
            piece.extend_from_slice(b"\r\n")
        }
        "origins" => {
            begin(piece, TARGET)?;
            piece.extend_from_slice(b"Origin: https://a.test\r\nOrigin: https://a.test\r\n\r\n")
        }
        "latin" => {
            begin(piece, TARGET)?;
            piece.extend_from_slice(b"Origin: \xe9\r\n\r\n")
        }
        "empty" => piece.extend_from_slice(b"\r\n"),
        "wait" => Ok(()),
        "ping" => add_frame(piece, 0x89, b"?"),
        "close" => add_frame(piece, 0x88, b""),
        "bytes" => add_frame(piece, 0x81, b"\xff"),
        "unmasked" => piece.extend_from_slice(b"\x81\x02{}"),
        "long" => add_long(alloc, piece),
        "half" => piece.extend_from_slice(b"\x81\x84\0\0\0\0ha"),
        "rest" => piece.extend_from_slice(b"lf"),
        "20" => {
            for _ in 0..20 {
                add_frame(piece, 0x81, b"x")?;
            }
            Ok(())
        }
        "fragments" => add_fragments(piece),
        _ => add_of(alloc, piece, word),
    }
}

/// Adds what a word with a value says; any other is a text.
fn add_of(alloc: Global, piece: &mut Vec<u8>, word: &str) -> Result<(), AllocError> {
    match word.split_once('=') {
        Some(("head", length)) => add_head(alloc, piece, length.parse::<usize>().unwrap_or(0)),
        Some(("target", target)) => {
            begin(piece, target)?;
            piece.extend_from_slice(b"\r\n")
        }
        Some(("get", part)) => add_get(piece, part),
        Some(("tail", part)) => {
            end_line(piece, part)?;
            piece.extend_from_slice(b"\r\n")
        }
        _ => add_frame(piece, 0x81, word.as_bytes()),
    }
}

/// A handshake's head with this target, up to its last field.
fn begin(piece: &mut Vec<u8>, target: &str) -> Result<(), AllocError> {
    add_get(piece, target)?;
    end_line(piece, "")
}

fn add_get(piece: &mut Vec<u8>, part: &str) -> Result<(), AllocError> {
    piece.extend_from_slice(b"GET ")?;
    piece.extend_from_slice(part.as_bytes())
}

fn end_line(piece: &mut Vec<u8>, part: &str) -> Result<(), AllocError> {
    piece.extend_from_slice(part.as_bytes())?;
    piece.extend_from_slice(b" HTTP/1.1\r\n")?;
    piece.extend_from_slice(FIELDS)
}

/// A handshake of so many bytes.
fn add_head(alloc: Global, piece: &mut Vec<u8>, length: usize) -> Result<(), AllocError> {
    begin(piece, TARGET)?;
    piece.extend_from_slice(b"Filler: ")?;
    let filler = length.saturating_sub(piece.len()).saturating_sub(4);
    piece.extend_from_slice(&vec![in alloc; b'x'; filler]?)?;
    piece.extend_from_slice(b"\r\n\r\n")
}

/// A frame of fewer than 126 bytes, masked with zeros.
fn add_frame(piece: &mut Vec<u8>, kind: u8, body: &[u8]) -> Result<(), AllocError> {
    piece.push(kind)?;
    piece.push(0x80 | u8::try_from(body.len()).unwrap_or(0))?;
    piece.extend_from_slice(&[0, 0, 0, 0])?;
    piece.extend_from_slice(body)
}

/// The beginning of a text that has no byte yet, and doesn't end: 240,006 bytes of frames.
fn add_fragments(piece: &mut Vec<u8>) -> Result<(), AllocError> {
    add_frame(piece, 0x01, b"")?;
    for _ in 0..40_000 {
        add_frame(piece, 0x00, b"")?;
    }
    Ok(())
}

/// A text of one byte more than may be.
fn add_long(alloc: Global, piece: &mut Vec<u8>) -> Result<(), AllocError> {
    piece.extend_from_slice(b"\x81\xff\0\0\0\0\0\x01\0\x01\0\0\0\0")?;
    piece.extend_from_slice(&vec![in alloc; b' '; 65_537]?)
}
