//! The turns of a loop's connections.

use super::EventLoop;
use crate::connection::Next;
use crate::host::{Host, Ring};
use std::mem;
use std::sync::Wait;
use std::time::Clock;

/// The connections that read and answer before any of them sends, at most.
const TOGETHER: usize = 16;

impl<'a, 'b, R: Wait + Clock, H: Host> EventLoop<'a, 'b, R, H> {
    /// Those that were marked get a turn, to push what changed.
    pub(super) fn take_marked(&mut self, from_others: bool) {
        let Some(ring) = self.shared.host.ring(self.number) else {
            return;
        };
        if !ring.take_rung() {
            return;
        }
        let mut keys = mem::replace(&mut self.keys, Vec::new(self.shared.alloc));
        if ring.collect(&mut keys) {
            for key in &keys {
                self.mark(*key, from_others);
            }
        } else {
            self.mark_all(from_others);
        }
        self.keys = keys;
    }

    /// The connection of this key gets a turn, if it has changes that nobody looked at: what it changed itself it was
    /// told with the answer.
    fn mark(&mut self, key: usize, from_others: bool) {
        if let Some(served) = self.served.get_mut(key) {
            if served.connection.is_marked() {
                served.connection.mark();
                if from_others {
                    served.connection.tell();
                }
                self.enqueue(key);
            }
        }
    }

    /// As `take_marked`, where a mark was missed: by looking at each connection.
    fn mark_all(&mut self, from_others: bool) {
        for key in 0..self.served.capacity() {
            self.mark(key, from_others);
        }
    }

    /// Each in the queue has a turn.
    pub(super) fn take_turns(&mut self) {
        let mut queue = mem::replace(&mut self.keys, Vec::new(self.shared.alloc));
        queue.clear();
        mem::swap(&mut self.queue, &mut queue);
        for keys in queue.chunks(TOGETHER) {
            if keys.len() > 1 {
                self.go_ahead(keys);
            }
            self.take_turns_of(keys);
        }
        self.keys = queue;
    }

    /// These read and answer before any of them sends. What a step of that needs is mostly at hand behind the one
    /// before, where a call that sends a text, which wakes the peer, would have driven it from the processor's caches.
    fn go_ahead(&mut self, keys: &[usize]) {
        for key in keys {
            let next = match self.served.get_mut(*key) {
                Some(served) => {
                    let next = served.connection.go_ahead(self.now);
                    self.is_busy |= served.connection.is_busy;
                    next
                }
                None => Next::Waits,
            };
            if next == Next::Ended {
                self.end_one(*key);
            }
            self.look_at_clock();
        }
    }

    /// Each of these has a turn.
    fn take_turns_of(&mut self, keys: &[usize]) {
        for key in keys {
            let next = match self.served.get_mut(*key) {
                Some(served) => {
                    served.connection.is_queued = false;
                    let next = served.connection.go_on(self.now);
                    self.is_busy |= served.connection.is_busy;
                    next
                }
                None => Next::Waits,
            };
            match next {
                Next::Waits => self.move_drawn(*key),
                Next::Again => self.enqueue(*key),
                Next::Ended => self.end_one(*key),
            }
            self.look_at_clock();
        }
    }
}
