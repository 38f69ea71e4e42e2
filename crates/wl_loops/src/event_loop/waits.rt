//! How a loop waits for events.

use super::{EventLoop, SWEEP};
use crate::host::Host;
use mio::Events;
use std::io::ErrorKind;
use std::sync::Wait;
use std::time::{Clock, Duration};
use std::{io, mem};

/// How often a loop that has a busy connection looks for events before it waits for them, where all others wait: for
/// some 20 µs.
const LOOKS: usize = 40;

impl<'a, 'b, R: Wait + Clock, H: Host> EventLoop<'a, 'b, R, H> {
    /// Waits until a stream is ready, or somebody wakes the loop, or it is time to look at all connections. Where a
    /// connection is to have a turn it doesn't wait.
    pub(super) fn wait(&mut self, events: &mut Events) -> io::Result<()> {
        if mem::replace(&mut self.is_busy, false) && self.finds_events(events)? {
            return Ok(());
        }
        let timeout = self.fall_asleep();
        self.shared.count_waiting();
        let waited = self.poll_for(events, timeout);
        self.shared.count_awake();
        if let Some(inbox) = self.shared.inboxes.get(self.number) {
            inbox.set_asleep(false);
        }
        waited
    }

    /// Whether a loop that has a busy connection finds events without a wait for them (busy polling). A thread that
    /// waits is woken later than one that looks finds what came, and a peer that sends again at once sends nearly as
    /// soon. While another loop is awake it doesn't look, so no more than one processor is ever used for that; and what
    /// others gave it ends it.
    fn finds_events(&mut self, events: &mut Events) -> io::Result<bool> {
        for _ in 0..LOOKS {
            if self.has_work() || !self.shared.others_wait() {
                return Ok(false);
            }
            self.poll_for(events, Duration::ZERO)?;
            if !events.is_empty() {
                return Ok(true);
            }
        }
        Ok(false)
    }

    /// Whether a connection is to have a turn, or something was given to this loop.
    fn has_work(&self) -> bool {
        if !self.queue.is_empty() || self.shared.is_rung(self.number) {
            return true;
        }
        match self.shared.inboxes.get(self.number) {
            Some(inbox) => inbox.has_newcomers(),
            None => false,
        }
    }

    /// Takes the events that there are, or else those that come within a time.
    pub(super) fn poll_for(&mut self, events: &mut Events, timeout: Duration) -> io::Result<()> {
        match self.poll.poll(events, Some(timeout)) {
            Err(error) if error.kind() != ErrorKind::Interrupted => Err(error),
            _ => Ok(()),
        }
    }

    /// Says that this loop sleeps, if it has nothing to do, and answers for how long it may.
    fn fall_asleep(&self) -> Duration {
        if !self.queue.is_empty() {
            return Duration::ZERO;
        }
        let Some(inbox) = self.shared.inboxes.get(self.number) else {
            return Duration::from_millis(SWEEP);
        };
        inbox.set_asleep(true);
        // The last look, which `Inbox` speaks of.
        if self.has_work() {
            Duration::ZERO
        } else {
            Duration::from_millis(SWEEP)
        }
    }
}
