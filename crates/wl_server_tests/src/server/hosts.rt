//! Relaying to what is no such server: the calls `relay_to HOST` and `relay_to_nobody` of lists.
//!
//! The host `leaving` answers two messages and leaves at the third, `binary` answers the third by bytes, and `page`
//! answers the hello by a page. The call answers whether the host could do so, and how relaying ends.

use super::loopback::pair;
use crate::lists::{show, word};
use std::alloc::{AllocError, Global};
use std::io::{Read, Write};
use std::net::{Net, TcpListener, TcpStream};
use std::random::RandomSource;
use std::sync::Wait;
use std::test::Fail;
use std::thread;
use std::thread::Threads;
use tungstenite::{Message, NoMask, WebSocket};
use wl_server::{RelayFault, relay};

const FOUR_LINES: &[u8] = b"a\nb\nc\nd\n";

/// Relays four lines.
pub fn relay_to<R>(rt: &R, alloc: Global, call: &str, came: &mut String) -> Result<(), Fail>
where
    R: Net<Listener = TcpListener, Stream = TcpStream> + Threads + Wait + RandomSource + Sync,
{
    let (listener, stream) = pair(rt)?;
    let ended = relay_to_host(rt, alloc, &listener, stream, word(call, 1));
    show(came, Some(ended))
}

fn relay_to_host<R>(
    rt: &R,
    alloc: Global,
    listener: &TcpListener,
    stream: TcpStream,
    host: &str,
) -> (bool, Result<u64, RelayFault>)
where
    R: Threads + Wait + RandomSource + Sync,
{
    thread::join(
        rt,
        || answer(alloc, listener, host),
        || relay_lines(rt, alloc, stream, FOUR_LINES),
    )
}

/// Relays a line over a connection whose listener is gone, so that it is reset.
pub fn relay_to_nobody<R>(rt: &R, alloc: Global, came: &mut String) -> Result<(), Fail>
where
    R: Net<Listener = TcpListener, Stream = TcpStream> + Wait + RandomSource,
{
    let (listener, stream) = pair(rt)?;
    drop(listener);
    show(came, Some(relay_lines(rt, alloc, stream, b"a\n")))
}

/// Relays the lines, whatever the replies.
pub fn relay_lines<R: Wait + RandomSource>(
    rt: &R,
    alloc: Global,
    stream: TcpStream,
    lines: &[u8],
) -> Result<u64, RelayFault> {
    let mut replies = Vec::new(alloc);
    relay(rt, alloc, stream, lines, &mut replies)
}

/// Answers the next connection as the host does, and tells whether it could.
fn answer(alloc: Global, listener: &TcpListener, host: &str) -> bool {
    let Ok((stream, _)) = listener.accept() else {
        return false;
    };
    if host == "page" {
        refuse(stream)
    } else {
        answer_some(alloc, stream, host == "binary")
    }
}

/// Answers the hello by a page.
fn refuse(stream: TcpStream) -> bool {
    let mut stream = stream;
    let mut hello = [0; 1_024];
    stream.read(&mut hello).is_ok() && stream.write_all(b"HTTP/1.1 200 OK\r\n\r\n").is_ok()
}

/// Answers two messages by texts, the next one by bytes or not at all, and leaves.
fn answer_some(alloc: Global, stream: TcpStream, gives_bytes: bool) -> bool {
    match tungstenite::accept(alloc, stream) {
        Ok(socket) => {
            let mut socket = socket;
            answer_texts(alloc, &mut socket)
                && hear(&mut socket)
                && (!gives_bytes || say(&mut socket, Message::binary(alloc, b"no")))
        }
        Err(_) => false,
    }
}

fn answer_texts(alloc: Global, socket: &mut WebSocket<TcpStream, NoMask>) -> bool {
    for _ in 0..2 {
        if !hear(socket) || !say(socket, Message::text(alloc, "so")) {
            return false;
        }
    }
    true
}

fn hear(socket: &mut WebSocket<TcpStream, NoMask>) -> bool {
    socket.read().is_ok()
}

fn say(socket: &mut WebSocket<TcpStream, NoMask>, message: Result<Message, AllocError>) -> bool {
    match message {
        Ok(message) => socket.send(message).is_ok(),
        Err(_) => false,
    }
}
