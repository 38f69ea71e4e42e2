//! What the event loops have behind them.

use crate::counts::Refused;
use crate::desk::Desk;
use crate::fencing::Fencing;
use crate::log_lines::tell_log;
use crate::loop_state::LoopState;
use crate::member::Member;
use crate::ring::LoopRing;
use log::Log;
use std::alloc::Global;
use std::sync::Wait;
use wl_admission::Admitted;
use wl_liveness::Limits;
use wl_loops::{Event, Host, Place};
use wl_manager::{Alarm, CoarseClock};
use wl_service::Service;
use wl_types::Memory;

/// Makes a member for each connection, at one service, and tells a log what happens.
#[derive(Drop)]
pub struct Hall<'a, L> {
    pub alloc: Global,
    pub service: &'a Service,
    /// One for each loop.
    pub loops: &'a Vec<LoopState>,
    /// That of the loops' rings.
    pub alarm: Alarm,
    /// The clock of the service's managers.
    pub clock: CoarseClock,
    pub refused: &'a Refused,
    /// None where the server has no epoch.
    pub fencing: Option<Fencing>,
    pub limits: Limits,
    pub log: &'a L,
}

impl<'a, L: Log> Host for Hall<'a, L> {
    type Ring = LoopRing;

    type Peer = Member<'a>;

    ghost held_to = { λ hall. hall.limits };

    fn limits(&self) -> &Limits {
        &self.limits
    }

    fn note(&self, event: Event) {
        match event {
            Event::Refused(_, rejection) => self.refused.refuse(rejection),
            Event::Dropped(_) => self.refused.drop_one(),
            Event::NoHandshake(_) => self.refused.hear_none(),
            Event::Late(_) => self.refused.wait_in_vain(),
            _ => {}
        }
        tell_log(self.log, event);
    }

    fn tell_time(&self, now: u64) {
        self.clock.set(now);
    }

    fn take_alarm(&self) -> bool {
        self.alarm.take()
    }

    fn ring(&self, event_loop: usize) -> Option<&LoopRing> {
        let state = self.loops.get(event_loop)?;
        Some(&state.ring)
    }

    fn begin<R: Wait>(
        &self,
        rt: &R,
        place: Place,
        admitted: Admitted,
    ) -> Result<Member<'a>, Memory> {
        let loops: &'a Vec<LoopState> = self.loops;
        // A connection of no loop has no room to be read in, and nobody who would tell it what changed.
        let Some(event_loop) = loops.get(place.event_loop) else {
            return Err(Memory);
        };
        let key = place.key as u64;
        let desk = Desk::new(self.alloc, self.service, admitted, event_loop, key);
        Member::new(rt, desk, self.fencing.as_ref())
    }

    fn set_place<R: Wait>(
        &self,
        rt: &R,
        peer: &mut Member<'a>,
        place: Place,
    ) -> Result<(), Memory> {
        let loops: &'a Vec<LoopState> = self.loops;
        let Some(event_loop) = loops.get(place.event_loop) else {
            return Err(Memory);
        };
        peer.desk.set_place(rt, event_loop, place.key as u64)
    }
}
