//! A client's end of a WebSocket.

ghost use Rattle.std.specs.Prelude.{◌≡◌, ◌⊎◌, ◌||◌, IfOk, IfErr, OnOk};
ghost use Rattle.tungstenite.specs.Content.{text, binary};
ghost use Rattle.tungstenite.specs.Socket.{content_of, has_kind};
ghost use Rattle.wl_server.specs.Sockets.{Receives};
ghost use Rattle.wl_server.specs.declared.fault.RelayFault.TheVariants.{Handshake, Memory};

use crate::RelayFault;
use crate::asking::{Asker, NoReply};
use std::alloc::{AllocError, Global};
use std::io::{Read, Write};
use std::marker::Model;
use std::random::RandomSource;
use std::str;
use std::sync::Wait;
use tungstenite::handshake::HandshakeError;
use tungstenite::handshake::client::request_of;
use tungstenite::{Error, MaskKeys, Message, RandomKeys, WebSocket, WebSocketConfig};

/// A client of a server. Contracts see its socket.
#[derive(Drop)]
pub struct Caller<S, K> {
    alloc: Global,
    socket: WebSocket<S, K>,
}

impl<S, K> Model for Caller<S, K> {
    ghost use Rattle.tungstenite.specs.Socket.{Socket};

    ghost Value = { Socket S };

    ghost view = { λ caller. caller.socket };
}

/// Shakes hands with the server of a stream. Its replies may be of any length.
pub fn connect<'a, R: RandomSource, S: Read + Write + Drop>(
    rt: &'a R,
    alloc: Global,
    stream: S,
) -> Result<Caller<S, RandomKeys<&'a R>>, RelayFault>
    ensures { IfErr result (λ fault. (fault ≡ Handshake) ⊎ (fault ≡ Memory)) }
{
    let request = match request_of(alloc, "ws://localhost/") {
        Ok(request) => request,
        Err(_) => return Err(RelayFault::Memory),
    };
    match tungstenite::client(alloc, rt, request, stream) {
        Ok((socket, _response)) => {
            let mut socket = socket;
            socket.set_config(
                WebSocketConfig::default()
                    .max_message_size(None)
                    .max_frame_size(None),
            );
            Ok(Caller { alloc, socket })
        }
        Err(HandshakeError::Failure(Error::OutOfMemory)) => Err(RelayFault::Memory),
        Err(_) => Err(RelayFault::Handshake),
    }
}

/// Why an error lets no reply come.
fn no_reply(error: &Error) -> NoReply {
    match error {
        Error::OutOfMemory => NoReply::Memory,
        _ => NoReply::Ended,
    }
}

/// A line as a message.
fn message_of(alloc: Global, line: &[u8]) -> Result<Message, AllocError>
    ensures { IfOk result (λ m. (content_of m ≡ text line.now) ⊎ (content_of m ≡ binary line.now)) }
{
    match str::from_utf8(line) {
        Ok(text) => Message::text(alloc, text),
        Err(_) => Message::binary(alloc, line),
    }
}

/// Puts a text in place of what `reply` has.
fn copy(text: &str, reply: &mut Vec<u8>) -> Result<(), NoReply>
    ensures { OnOk result (reply.new.items ≡ text.now) }
{
    reply.clear();
    match reply.extend_from_slice(text.as_bytes()) {
        Ok(()) => Ok(()),
        Err(_) => Err(NoReply::Memory),
    }
}

/// Whether a message is a ping or a pong.
fn is_idle(message: &Message) -> bool
    ensures { result ≡ (has_kind 2 message.now || has_kind 3 message.now) }
{
    message.is_ping() || message.is_pong()
}

/// Puts the next text that comes in place of what `reply` has.
fn hear<R: Wait, S: Read + Write + Drop, K: MaskKeys + Drop>(
    rt: &R,
    socket: &mut WebSocket<S, K>,
    reply: &mut Vec<u8>,
) -> Result<(), NoReply>
    ensures { OnOk result (Receives S.remaining socket.old (text reply.new.items) socket.new) }
{
    for _ in rt.forever() {
        match socket.read() {
            Ok(Message::Text(text)) => return copy(text.as_str(), reply),
            Ok(message) => {
                if !is_idle(&message) {
                    return Err(NoReply::Ended);
                }
            }
            Err(error) => return Err(no_reply(&error)),
        }
    }
    unreachable!()
}

impl<S: Read + Write + Drop, K: MaskKeys + Drop> Asker for Caller<S, K> {
    ghost use Rattle.wl_server.specs.Sockets.{Asks};

    ghost asks = { λ old line reply new. Asks S.remaining S.contents old line reply new };

    fn ask<R: Wait>(&mut self, rt: &R, line: &[u8], reply: &mut Vec<u8>) -> Result<(), NoReply> {
        let Ok(message) = message_of(self.alloc, line) else {
            return Err(NoReply::Memory);
        };
        match self.socket.send(message) {
            Ok(()) => hear(rt, &mut self.socket, reply),
            Err(error) => Err(no_reply(&error)),
        }
    }
}

impl<S: Read + Write + Drop, K: MaskKeys + Drop> Caller<S, K> {
    /// Sends a close frame, and reads until the connection ends.
    pub fn close<R: Wait>(&mut self, rt: &R) {
        if self.socket.close(None).is_err() {
            return;
        }
        for _ in rt.forever() {
            if self.socket.read().is_err() {
                return;
            }
        }
    }
}
