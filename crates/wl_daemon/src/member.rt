//! Who answers over a connection.

ghost use Rattle.std.specs.Prelude.{◌≡◌, IfOk, IfSome, true, string_bytes};
ghost use Rattle.wl_session.specs.Step.{closed};
ghost use Rattle.wl_daemon.specs.Fencing.{IsFenced, wants_fences};

use crate::desk::Desk;
use crate::fencing::{Fencing, text_with_tokens, wants_fences};
use std::alloc::AllocFailed;
use std::sync::Wait;
use wl_loops::Listener;
use wl_server::{NoAnswer, Peer};
use wl_types::Memory;
use wl_wire::{Answer, Ending, Speaker};

/// What a peer is told that asked for a URL which isn't for it.
const FORBIDDEN: &str = "this page or token may not open that origin";

/// What a peer is told that asked for one bucket more than may be.
const BUSY: &str = "too many buckets are open";

/// The agent of a connection, and where it opens. It can't be dropped: who has one has to end it.
pub struct Member<'a> {
    // In boxes, since a member goes through many hands with each message; what it says is made where the peer stands.
    pub peer: Box<Peer>,
    pub desk: Box<Desk<'a>>,
    /// That of the tokens which it is told; none where it is told none.
    pub epoch: Option<u64>,
}

impl<'a> Speaker for Member<'a> {
    ghost use Rattle.wl_daemon.specs.Fencing.{Pushes, Replies, Rests};

    ghost answers = { Replies };

    ghost pushes = { Pushes };

    ghost rests = { Rests };

    fn answer<R: Wait>(self, rt: &R, message: &[u8]) -> Result<(Member<'a>, Answer), Memory> {
        let Member { peer, desk, epoch } = self;
        let mut peer = peer;
        let event_loop = desk.event_loop;
        event_loop.counts.hear(message);
        // Locked for this message alone.
        let mut scratch = event_loop.scratch.lock(rt);
        let answered = peer.reply(rt, &*desk, message, &mut scratch);
        drop(scratch);
        let member = Member { peer, desk, epoch };
        match answered {
            Ok(text) => {
                event_loop.counts.reply(text.as_str());
                let (member, text) = member.with_tokens(rt, text)?;
                Ok((member, Answer::Text(text)))
            }
            Err(NoAnswer::Memory) => {
                member.end(rt);
                Err(Memory)
            }
            // Neither of these opened an agent.
            Err(NoAnswer::Forbidden) => Ok((member, Answer::End(Ending::Forbidden(FORBIDDEN)))),
            Err(NoAnswer::TooManyManagers) => Ok((member, Answer::End(Ending::Busy(BUSY)))),
        }
    }

    fn push<R: Wait>(self, rt: &R) -> Result<(Member<'a>, Option<String>), Memory> {
        let Member { peer, desk, epoch } = self;
        let mut peer = peer;
        let pushed = peer.push_text();
        let member = Member { peer, desk, epoch };
        match pushed {
            Ok(Some(text)) => {
                member.desk.event_loop.counts.push(text.as_str());
                let (member, text) = member.with_tokens(rt, text)?;
                Ok((member, Some(text)))
            }
            Ok(None) => Ok((member, None)),
            Err(Memory) => {
                member.end(rt);
                Err(Memory)
            }
        }
    }

    fn end<R: Wait>(self, rt: &R) {
        let Member {
            peer,
            desk,
            epoch: _epoch,
        } = self;
        Box::into_inner(peer).end_by(rt, &*desk)
    }
}

impl<'a> Member<'a> {
    /// A member that didn't open yet, and opens at this desk. It is told tokens where the server has them, and its
    /// handshake selected them.
    pub fn new<R: Wait>(
        rt: &R,
        desk: Desk<'a>,
        fencing: Option<&Fencing>,
    ) -> Result<Member<'a>, Memory>
        ensures closed { IfOk result (λ member. member.peer.value ≡ closed) }
        ensures desk { IfOk result (λ member. member.desk.value ≡ desk.entry) }
        ensures selected { IfOk result (λ member. IfSome member.epoch
            (λ epoch. wants_fences member.desk.value.admitted.selected ≡ true)) }
    {
        let alloc = desk.alloc;
        let desk = Box::new(alloc, desk)?;
        let (peer, epoch) = match fencing {
            Some(fencing) if wants_fences(&desk.admitted) => {
                let counter = fencing.counter.share()?;
                (Peer::with_fences(alloc, counter), Some(fencing.epoch))
            }
            _ => (Peer::new(alloc), None),
        };
        match Box::new(alloc, peer) {
            Ok(peer) => Ok(Member { peer, desk, epoch }),
            Err(AllocFailed { value }) => {
                value.end_by(rt, &*desk);
                Err(Memory)
            }
        }
    }

    /// What it made as its connection is told it, and its bytes are counted. Where memory is refused it has ended.
    fn with_tokens<R: Wait>(self, rt: &R, text: String) -> Result<(Member<'a>, String), Memory>
        ensures member { IfOk result (λ told. told.0 ≡ self.entry) }
        ensures text { IfOk result (λ told. IsFenced self.entry.epoch (string_bytes text) (string_bytes told.1)) }
    {
        match text_with_tokens(self.desk.alloc, self.epoch, &self.peer, text) {
            Ok(told) => {
                self.desk.event_loop.counts.send(told.as_str());
                Ok((self, told))
            }
            Err(Memory) => {
                self.end(rt);
                Err(Memory)
            }
        }
    }
}

impl Listener for Member<'_> {
    fn is_marked(&self) -> bool {
        self.peer.is_rung()
    }

    fn meeting(&self) -> Option<usize> {
        self.desk.meeting()
    }
}
