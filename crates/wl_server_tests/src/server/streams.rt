//! Connections over streams in memory: the call `serve STREAM FRAME ..` of lists.
//!
//! A `wide` stream takes all that is written, and a `narrow` one two writes, the handshake's and another; a client over
//! the stream `http` asks for no WebSocket. The frames are those of `server::frames`.

use super::frames::add_frames;
use super::taker::Taker;
use crate::lists::{rest, show, word};
use std::alloc::Global;
use std::io::Read;
use std::sync::Wait;
use std::test::Fail;
use tungstenite::Duplex;
use wl_server::{ServeEnd, serve_one};
use wl_service::Service;

/// A client's half of the opening handshake.
pub const HELLO: &[u8] =
    b"GET / HTTP/1.1\r\nHost: a\r\nConnection: Upgrade\r\nUpgrade: websocket\r\nSec-WebSocket-Version: 13\r\nSec-WebSocket-Key: dGhlIHNhbXBsZSBub25jZQ==\r\n\r\n";

/// A request for a page.
pub const NO_HELLO: &[u8] = b"GET / HTTP/1.0\r\n\r\n";

/// Serves the stream of the call.
pub fn serve<R: Wait>(
    rt: &R,
    alloc: Global,
    service: &Service,
    call: &str,
    came: &mut String,
) -> Result<(), Fail> {
    let mut frames = Vec::new(alloc);
    add_frames(alloc, &mut frames, rest(call))?;
    let end = serve_frames(rt, alloc, service, word(call, 1), frames.as_slice());
    show(came, Some(end))
}

/// Serves a stream that gives the hello at its first read, then the frames, and then ends.
fn serve_frames<R: Wait>(
    rt: &R,
    alloc: Global,
    service: &Service,
    stream: &str,
    frames: &[u8],
) -> ServeEnd {
    let hello = if stream == "http" { NO_HELLO } else { HELLO };
    let writer = Taker {
        taken: Vec::new(alloc),
        writes: if stream == "narrow" { 2 } else { usize::MAX },
    };
    let stream = Duplex {
        reader: hello.chain(frames),
        writer,
    };
    serve_one(rt, alloc, stream, service)
}
