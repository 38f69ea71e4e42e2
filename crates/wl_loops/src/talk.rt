//! What an open connection has.

use crate::corkable::Corkable;
use crate::host::{Host, Listener, Place};
use crate::seat::Seat;
use crate::transport::Transport;
use mio::{Registry, Token};
use std::sync::Wait;
use wl_wire::{Ending, Pace, Turn, Wire, take_turn};

/// The speaker of an open connection, and its wire. The wire is large, so it stays where it is during a turn.
#[derive(Drop)]
pub struct Talk<'a, R: Wait, P: Listener> {
    // Let go of in this order, so that whoever sees the stream closed finds the speaker ended.
    pub seat: Seat<'a, R, P>,
    pub wire: Wire<Corkable<Transport>>,
}

impl<'a, R: Wait, P: Listener> Talk<'a, R, P> {
    /// Takes a turn, or answers why the connection is to end.
    pub fn go_on(&mut self, rt: &R, may_push: &mut bool) -> Result<Pace, Ending> {
        let Some(speaker) = self.seat.take() else {
            return Err(Ending::Memory);
        };
        match take_turn(rt, &mut self.wire, speaker, may_push) {
            Turn::Went(speaker, pace) => {
                self.seat.put(speaker);
                Ok(pace)
            }
            Turn::Ended(ending) => Err(ending),
        }
    }

    /// The same, but nothing leaves: what is to be sent waits for the next turn.
    pub fn go_on_corked(&mut self, rt: &R, may_push: &mut bool) -> Result<Pace, Ending> {
        self.wire.stream().cork();
        let gone = self.go_on(rt, may_push);
        self.wire.stream().uncork();
        gone
    }

    fn transport(&self) -> &Transport {
        self.wire.stream().get_ref()
    }

    /// Has this poll report no more of its stream, and answers whether it won't.
    pub fn detach(&self, registry: &Registry) -> bool {
        self.transport().deregister(registry).is_ok()
    }

    /// Has its stream and its speaker report to this place, and answers whether they will. Else neither does.
    pub fn set_place<H: Host<Peer = P>>(
        &mut self,
        rt: &R,
        host: &H,
        registry: &Registry,
        place: Place,
    ) -> bool {
        if self
            .transport()
            .register(registry, Token(place.key))
            .is_err()
        {
            return false;
        }
        if !self.set_speaker_place(rt, host, place) {
            let _ = self.transport().deregister(registry);
            return false;
        }
        self.wire.wake();
        true
    }

    fn set_speaker_place<H: Host<Peer = P>>(&mut self, rt: &R, host: &H, place: Place) -> bool {
        let Some(speaker) = self.seat.take() else {
            // Its next turn ends it.
            return true;
        };
        let mut speaker = speaker;
        let is_placed = host.set_place(rt, &mut speaker, place).is_ok();
        self.seat.put(speaker);
        is_placed
    }
}
