//! Connections on their way from one loop to another.

use crate::host::{Host, Place};
use crate::served::Served;
use crate::shared::Shared;
use mio::Registry;
use slab::Slab;
use std::alloc::AllocError;
use std::sync::{Mutex, Wait};
use wl_admission::Source;

/// The connections on their way to each loop. It is made after what the loops share, since connections speak of that.
#[derive(Drop)]
pub struct Lobby<'a, R: Wait, H: Host> {
    rooms: Vec<Mutex<Room<'a, R, H>>>,
}

/// The connections on their way to one loop.
#[derive(Drop)]
struct Room<'a, R: Wait, H: Host> {
    // What its connections speak of too. Without them the prover doesn't see that these live as long as the room.
    rt: &'a R,
    host: &'a H,
    moved: Vec<Served<'a, R, H>>,
    // The loop is leaving: from now on each connection stays where it is.
    is_closed: bool,
}

impl<'a, R: Wait, H: Host> Lobby<'a, R, H> {
    /// Empty rooms, one for each loop.
    pub fn new(rt: &'a R, shared: &'a Shared<H>) -> Result<Lobby<'a, R, H>, AllocError> {
        let mut rooms = Vec::new(shared.alloc);
        for _ in 0..shared.inboxes.len() {
            let room = Room {
                rt,
                host: &shared.host,
                moved: Vec::new(shared.alloc),
                is_closed: false,
            };
            if rooms.push(Mutex::new(room)).is_err() {
                return Err(AllocError);
            }
        }
        Ok(Lobby { rooms })
    }

    /// How many loops there are.
    pub(crate) fn rooms(&self) -> usize {
        self.rooms.len()
    }

    /// Sends the connection of this key, of the loop with this poll, to another, and answers whose it is. Where there
    /// is no memory for that, or the other loop is leaving, it stays.
    pub(crate) fn send(
        &self,
        rt: &R,
        served: &mut Slab<Served<'a, R, H>>,
        key: usize,
        registry: &Registry,
        to: usize,
    ) -> Option<Source> {
        let mut guard = self.rooms.get(to)?.lock(rt);
        let room = &mut *guard;
        if room.is_closed || room.moved.reserve(1).is_err() {
            return None;
        }
        if !served.get(key)?.connection.detach(registry) {
            return None;
        }
        let one = served.try_remove(key)?;
        let source = one.hold.source();
        room.moved.push_reserved(one);
        Some(source)
    }

    /// Takes in a connection that was sent to the loop of this place and this poll. Where there is no memory for that
    /// it waits for the next time.
    pub(crate) fn receive(
        &self,
        rt: &R,
        registry: &Registry,
        place: Place,
    ) -> Option<Served<'a, R, H>> {
        let mut guard = self.rooms.get(place.event_loop)?.lock(rt);
        let room = &mut *guard;
        if !room.moved.last_mut()?.connection.set_place(registry, place) {
            return None;
        }
        room.moved.pop()
    }

    /// From now on nothing is sent to this loop.
    pub(crate) fn close(&self, rt: &R, event_loop: usize) {
        if let Some(room) = self.rooms.get(event_loop) {
            room.lock(rt).is_closed = true;
        }
    }
}
