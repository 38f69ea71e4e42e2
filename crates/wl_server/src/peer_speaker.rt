//! A peer that speaks to a service.

use crate::peer::Peer;
use crate::transport::Speaker;
use std::sync::Wait;
use wl_codec::Scratch;
use wl_service::Service;
use wl_types::Memory;

/// A peer, and the service that it asks.
pub struct PeerSpeaker<'a> {
    pub peer: Peer,
    pub service: &'a Service,
    /// Lent to the reading of each message.
    pub scratch: Scratch,
}

impl Speaker for PeerSpeaker<'_> {
    ghost use Rattle.wl_server.specs.Peers.{Answers};

    ghost answers = { λ old message text new. Answers old.peer message text new.peer };

    fn answer<R: Wait>(self, rt: &R, message: &[u8]) -> Result<(Self, String), Memory> {
        let PeerSpeaker {
            peer,
            service,
            mut scratch,
        } = self;
        let (peer, text) = peer.answer_in(rt, service, message, &mut scratch)?;
        let next = PeerSpeaker {
            peer,
            service,
            scratch,
        };
        Ok((next, text))
    }

    fn end<R: Wait>(self, rt: &R) {
        let PeerSpeaker {
            peer,
            service: _,
            scratch: _scratch,
        } = self;
        peer.end(rt)
    }
}
