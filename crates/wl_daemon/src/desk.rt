//! What the peer of a connection may open.

ghost use Rattle.std.specs.Prelude.{◌≡◌, false, true, IfErr, IfOk, OnOk};
ghost use Rattle.wl_admission.specs.Handshakes.{terms_for};
ghost use Rattle.wl_daemon.specs.Desks.{may_ask_for};

use crate::loop_state::LoopState;
use std::alloc::Global;
use std::hash::{FoldHasher, Hash, Hasher};
use std::sync::atomic::{AtomicUsize, Ordering};
use std::sync::{Mutex, Wait};
use wl_admission::Admitted;
use wl_manager::Bell;
use wl_origin::{KeyFault, Standing, key_of};
use wl_server::{NotOpened, Opener};
use wl_service::{Client, Leaving, OpenFault, Service};
use wl_types::{Kind, Memory, Text};

/// The meeting of an agent that nobody tells anything.
const NOWHERE: usize = usize::MAX;

/// Opens the clients of one connection at the service: those that its peer may open, each with a bell that marks the
/// connection.
#[derive(Drop)]
pub struct Desk<'a> {
    pub alloc: Global,
    pub service: &'a Service,
    pub admitted: Admitted,
    /// What the loop has that serves the connection.
    pub event_loop: &'a LoopState,
    /// The connection, among those of its loop.
    pub key: u64,
    // The agent's bell once more, to be moved. It has a lock since an agent is opened by who shares the desk; nobody
    // waits for it.
    bell: Mutex<Option<Bell>>,
    // The agent's meeting, or `NOWHERE`.
    meeting: AtomicUsize,
}

impl<'a> Desk<'a> {
    /// The desk of a connection whose agent didn't open yet.
    pub fn new(
        alloc: Global,
        service: &'a Service,
        admitted: Admitted,
        event_loop: &'a LoopState,
        key: u64,
    ) -> Desk<'a>
        ensures { result.admitted ≡ admitted }
    {
        Desk {
            alloc,
            service,
            admitted,
            event_loop,
            key,
            bell: Mutex::new(None),
            meeting: AtomicUsize::new(NOWHERE),
        }
    }

    /// A number that all agents of its manager have in common: they alone tell each other something. None where the
    /// agent isn't told.
    pub fn meeting(&self) -> Option<usize> {
        let meeting = self.meeting.load(Ordering::SeqCst);
        if meeting == NOWHERE {
            return None;
        }
        Some(meeting)
    }

    /// From now on the connection is that of this key, of this loop. Where memory is refused it stays that of the one
    /// before.
    pub fn set_place<R: Wait>(
        &mut self,
        rt: &R,
        event_loop: &'a LoopState,
        key: u64,
    ) -> Result<(), Memory>
        ensures { self.new.admitted ≡ self.old.admitted }
    {
        if let Some(bell) = &*self.bell.lock(rt) {
            bell.move_to(rt, event_loop.ring.places(), key)?;
        }
        self.event_loop = event_loop;
        self.key = key;
        Ok(())
    }

    /// Marks the connection where something changed for it, twice the same; none where its peer wants no pushes.
    fn bells(&self) -> Result<Option<(Bell, Bell)>, Memory> {
        if !self.admitted.is_pushed() {
            return Ok(None);
        }
        let bell = Bell::new(self.alloc, self.event_loop.ring.places(), self.key)?;
        let other = bell.share()?;
        Ok(Some((bell, other)))
    }

    /// Keeps what is needed to move the connection of an agent that opened.
    fn keep<R: Wait>(&self, rt: &R, bell: Option<Bell>, meeting: usize) {
        let is_told = bell.is_some();
        *self.bell.lock(rt) = bell;
        let meeting = if is_told { meeting } else { NOWHERE };
        self.meeting.store(meeting, Ordering::SeqCst);
    }

    /// The meeting of the agents of this URL's origin and this bucket. Those of others may have the same.
    fn meeting_at(&self, url: &str, bucket: &Text) -> usize {
        let Ok(Standing::Tuple(origin)) = key_of(self.alloc, url) else {
            return NOWHERE;
        };
        let mut hasher = FoldHasher::default();
        origin.hash(&mut hasher);
        bucket.as_str().hash(&mut hasher);
        (hasher.finish() >> 32) as usize
    }

    /// Whether the URL is for this peer. A text that is no URL is for nobody, which the service says.
    fn may_open(&self, url: &str) -> Result<bool, Memory>
        ensures { IfOk result (λ may. may ≡ may_ask_for (terms_for self.now.admitted) url.now) }
    {
        match key_of(self.alloc, url) {
            Ok(origin) => Ok(self.admitted.may_open(&origin)),
            Err(KeyFault::BadUrl) => Ok(true),
            Err(KeyFault::Memory) => Err(Memory),
        }
    }
}

impl Opener for Desk<'_> {
    fn open<R: Wait>(
        &self,
        rt: &R,
        url: &str,
        bucket: Text,
        kind: Kind,
    ) -> Result<Client, NotOpened>
        ensures opened { OnOk result (may_ask_for (terms_for self.now.admitted) url.now ≡ true) }
        ensures forbidden { IfErr result (λ why. why ≡ NotOpened.Forbidden
            → may_ask_for (terms_for self.now.admitted) url.now ≡ false) }
    {
        match self.may_open(url) {
            Ok(true) => {}
            Ok(false) => return Err(NotOpened::Forbidden),
            Err(Memory) => return Err(NotOpened::Fault(OpenFault::Memory)),
        }
        let Ok(bells) = self.bells() else {
            return Err(NotOpened::Fault(OpenFault::Memory));
        };
        let (bell, kept) = match bells {
            Some((bell, kept)) => (Some(bell), Some(kept)),
            None => (None, None),
        };
        let meeting = self.meeting_at(url, &bucket);
        match self.service.open_heard(rt, url, bucket, kind, bell) {
            Ok(client) => {
                self.event_loop.counts.opened.add(1);
                self.keep(rt, kept, meeting);
                Ok(client)
            }
            Err(fault) => Err(NotOpened::Fault(fault)),
        }
    }

    fn close<R: Wait>(&self, rt: &R, client: Client) -> Option<Leaving> {
        self.event_loop.counts.closed.add(1);
        self.service.close(rt, client)
    }
}
