//! Connections that go to another loop.
//!
//! Those that hand a lock from one to the other meet on one loop, where a push is one more turn of the loop that is
//! awake already, and no thread is woken for it. A connection is at each time in one place: served by one loop, or in
//! the room of the loop that is to serve it. What happens to it meanwhile stays where it is: bytes in its stream, of
//! which the other poll is told once the stream is registered there, and changes in its inbox, at which its first turn
//! there looks.

use super::{EventLoop, MOST_NEWCOMERS};
use crate::host::{Event, Host, Place};
use crate::served::Served;
use std::sync::Wait;
use std::time::Clock;

impl<'a, 'b, R: Wait + Clock, H: Host> EventLoop<'a, 'b, R, H> {
    /// Has the connection of this key served where those meet that it hands over to, if another loop draws it.
    pub(super) fn move_drawn(&mut self, key: usize) {
        let Some(lobby) = self.lobby else {
            return;
        };
        let Some(served) = self.served.get_mut(key) else {
            return;
        };
        let Some(meeting) = served.connection.meeting_if_drawn() else {
            return;
        };
        let rooms = lobby.rooms();
        if rooms == 0 || meeting % rooms == self.number {
            served.connection.stay();
            return;
        }
        self.send_away(key, meeting % rooms);
    }

    /// Sends the connection of this key to another loop.
    fn send_away(&mut self, key: usize, to: usize) {
        let inboxes = &self.shared.inboxes;
        let (Some(lobby), Some(here), Some(there)) = (
            self.lobby,
            inboxes.get(self.number),
            inboxes.get(to),
        ) else {
            return;
        };
        // It counts there before it can end there.
        there.count_in();
        match lobby.send(self.rt, &mut self.served, key, self.poll.registry(), to) {
            Some(source) => {
                here.count_out();
                there.set_newcomers();
                there.rouse();
                self.shared.host.note(Event::Moved(source, to));
            }
            None => there.count_out(),
        }
    }

    /// Takes in the connections that other loops sent here. Those for which there is no memory wait for the next time.
    pub(super) fn take_moved(&mut self) {
        for _ in 0..MOST_NEWCOMERS {
            let Some(served) = self.next_moved() else {
                return;
            };
            self.put_moved(served);
        }
    }

    /// One of them, if there is one and memory for it.
    fn next_moved(&mut self) -> Option<Served<'a, R, H>> {
        let lobby = self.lobby?;
        if self.served.reserve(1).is_err() {
            return None;
        }
        let place = Place {
            event_loop: self.number,
            key: self.served.vacant_key(),
        };
        lobby.receive(self.rt, self.poll.registry(), place)
    }

    /// What happened to a connection on its way is looked at by its first turn.
    fn put_moved(&mut self, served: Served<'a, R, H>) {
        let hold = served.hold;
        let Ok(key) = self.served.insert(served) else {
            self.shared.leave(self.rt, self.number, hold);
            return;
        };
        if let Some(served) = self.served.get_mut(key) {
            served.connection.mark();
        }
        self.enqueue(key);
    }

    /// Takes in those on their way here for the last time: from now on none is sent.
    pub(super) fn close_room(&mut self) {
        if let Some(lobby) = self.lobby {
            lobby.close(self.rt, self.number);
        }
        self.take_moved();
    }
}
