//! One connection over a stream.

ghost use Rattle.wl_server.specs.Serving.{IsServed};

use crate::peer::Peer;
use crate::peer_speaker::PeerSpeaker;
use crate::socket::accept;
use crate::talk::{Gate, talk};
use crate::{ServeEnd, ServeFault};
use std::alloc::Global;
use std::io::{Read, Write};
use std::sync::Wait;
use wl_codec::Scratch;
use wl_service::Service;

/// Hooks that are told nothing.
pub struct NoHooks;

impl Gate for NoHooks {
    fn enter(&self, _connection: u64) {}

    fn answered(&self, _connection: u64, _count: u64) {}
}

/// Serves one connection: shakes hands as a server, and answers each text or binary message by one text message, until
/// the connection ends. Its agent was terminated when the call returns.
pub fn serve_one<R: Wait, S: Read + Write + Drop>(
    rt: &R,
    alloc: Global,
    stream: S,
    service: &Service,
) -> ServeEnd
    ensures { IsServed S.remaining S.contents result }
{
    serve_with_hooks(rt, alloc, stream, &NoHooks, 1, service)
}

/// `serve_one`, with what is told of the connection of that number.
pub fn serve_with_hooks<R: Wait, S: Read + Write + Drop, G: Gate>(
    rt: &R,
    alloc: Global,
    stream: S,
    gate: &G,
    connection: u64,
    service: &Service,
) -> ServeEnd
    ensures { IsServed S.remaining S.contents result }
{
    gate.enter(connection);
    match accept(alloc, stream) {
        Ok(socket) => {
            let mut socket = socket;
            let peer_speaker = PeerSpeaker {
                peer: Peer::new(alloc),
                service,
                scratch: Scratch::new(alloc),
            };
            talk(rt, &mut socket, peer_speaker, gate, connection)
        }
        Err(fault) => ServeEnd {
            answered: 0,
            fault: Some(fault),
        },
    }
}
