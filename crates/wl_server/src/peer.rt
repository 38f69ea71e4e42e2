//! The agent of a connection.

ghost use Rattle.std.specs.Prelude.{◌≡◌, IfOk, IfSome, IfNone, string_bytes};
ghost use Rattle.wl_session.specs.Step.{closed};
ghost use Rattle.wl_server.specs.Peers.{Answers, PushesText};

use crate::dispatch::outcome_of;
use crate::fences::{Fence, FenceCounter};
use crate::open_client::OpenClient;
use crate::opener::{NoAnswer, Opener};
use crate::requests::Requests;
use std::alloc::Global;
use std::marker::Model;
use std::sync::Wait;
use wl_codec::{Outcome, Scratch, read_message_with};
use wl_service::Service;
use wl_session::{Plan, Session};
use wl_types::Memory;

/// The agent of a connection: the session with it, and once it opened its client and its requests. Contracts see the
/// session.
///
/// A peer can't be dropped: it ends by `end_by`, by `end` where its service keeps each manager, or where it can't
/// answer or tell.
pub struct Peer {
    alloc: Global,
    session: Session,
    open_client: Option<OpenClient>,
    requests: Requests,
}

impl Model for Peer {
    ghost use Rattle.wl_session.specs.Step.{State};

    ghost Value = { State };

    ghost view = { λ peer. peer.session };
}

impl Peer {
    /// A peer that didn't open yet.
    pub fn new(alloc: Global) -> Peer
        ensures { result ≡ closed }
    {
        Peer::with(alloc, None)
    }

    /// A peer that didn't open yet, and whose grants have fences by this counter.
    pub fn with_fences(alloc: Global, counter: FenceCounter) -> Peer
        ensures { result ≡ closed }
    {
        Peer::with(alloc, Some(counter))
    }

    fn with(alloc: Global, counter: Option<FenceCounter>) -> Peer
        ensures { result ≡ closed }
    {
        Peer {
            alloc,
            session: Session::new(alloc),
            open_client: None,
            requests: Requests::new(alloc, counter),
        }
    }

    /// The fences of the grants that the last reply told, or the last push, by request number: for `fenced_text` of it.
    pub fn fences(&self) -> &[Fence] {
        self.requests.fences()
    }

    /// `answer_by` the service itself, which keeps each manager and opens any URL. The room in which the message is
    /// read is made for it alone: who reads many keeps one, and lends it to `answer_by`.
    pub fn answer<R: Wait>(
        self,
        rt: &R,
        service: &Service,
        message: &[u8],
    ) -> Result<(Peer, String), Memory>
        ensures { IfOk result (λ said. Answers self message.now (string_bytes said.1) said.0) }
    {
        let mut scratch = Scratch::new(self.alloc);
        self.answer_in(rt, service, message, &mut scratch)
    }

    /// `answer`, where the message is read in this room.
    pub(crate) fn answer_in<R: Wait>(
        self,
        rt: &R,
        service: &Service,
        message: &[u8],
        scratch: &mut Scratch,
    ) -> Result<(Peer, String), Memory>
        ensures { IfOk result (λ said. Answers self message.now (string_bytes said.1) said.0) }
    {
        match self.answer_by(rt, service, message, scratch) {
            Ok(said) => Ok(said),
            // Such a service gives no other cause.
            Err(_) => Err(Memory),
        }
    }

    /// The reply to a message, as a text. The reply tells what became of the agent's requests since the last. Where
    /// there is none the agent was terminated. The message is read in the scratch, which any peers may share.
    pub fn answer_by<R: Wait, O: Opener>(
        self,
        rt: &R,
        opener: &O,
        message: &[u8],
        scratch: &mut Scratch,
    ) -> Result<(Peer, String), NoAnswer>
        ensures { IfOk result (λ said. Answers self message.now (string_bytes said.1) said.0) }
    {
        let mut peer = self;
        match peer.reply(rt, opener, message, scratch) {
            Ok(text) => Ok((peer, text)),
            Err(fault) => {
                peer.end_by(rt, opener);
                Err(fault)
            }
        }
    }

    /// `answer_by` of a peer that stays where it is. Where there is no reply its agent is still there: whoever has the
    /// peer is to end it.
    pub fn reply<R: Wait, O: Opener>(
        &mut self,
        rt: &R,
        opener: &O,
        message: &[u8],
        scratch: &mut Scratch,
    ) -> Result<String, NoAnswer>
        ensures { IfOk result (λ text. Answers self.old message.now (string_bytes text) self.new) }
    {
        let reading = read_message_with(self.alloc, message, scratch)?;
        let Plan { id, action } = self.session.plan(reading);
        let outcome = outcome_of(
            rt,
            opener,
            &mut self.open_client,
            &mut self.requests,
            action,
        )?;
        let observed = self
            .requests
            .observe(self.open_client.as_ref(), &self.session, &outcome)?;
        let text = self.session.finish_changed(id, outcome, &observed)?;
        self.requests.remove_ended(&observed);
        Ok(text)
    }

    /// What became of the agent's requests since they were last reported, as a text; none where nothing is to be
    /// pushed. Where there is no memory for it, the agent was terminated.
    pub fn push<R: Wait, O: Opener>(
        self,
        rt: &R,
        opener: &O,
    ) -> Result<(Peer, Option<String>), Memory>
        ensures text { IfOk result (λ said. IfSome said.1 (λ text. PushesText self (string_bytes text) said.0)) }
        ensures none { IfOk result (λ said. IfNone said.1 (said.0 ≡ self)) }
    {
        let mut peer = self;
        match peer.push_text() {
            Ok(text) => Ok((peer, text)),
            Err(Memory) => {
                peer.end_by(rt, opener);
                Err(Memory)
            }
        }
    }

    /// `push` of a peer that stays where it is. Where there is no memory for it its agent is still there: whoever has
    /// the peer is to end it.
    pub fn push_text(&mut self) -> Result<Option<String>, Memory>
        ensures text { IfOk result (λ said. IfSome said (λ text. PushesText self.old (string_bytes text) self.new)) }
        ensures none { IfOk result (λ said. IfNone said (self.new ≡ self.old)) }
    {
        let outcome = Outcome::Polled;
        let observed = self
            .requests
            .observe(self.open_client.as_ref(), &self.session, &outcome)?;
        if !self.session.has_notices(&outcome, &observed) {
            return Ok(None);
        }
        let text = self.session.finish_changed(None, outcome, &observed)?;
        self.requests.remove_ended(&observed);
        Ok(Some(text))
    }

    /// Whether a request may have changed since the agent's requests were last looked at.
    pub fn is_rung(&self) -> bool {
        match &self.open_client {
            Some(open_client) => open_client.client().is_rung(),
            None => false,
        }
    }

    /// `end_by`, where the service keeps each manager.
    pub fn end<R: Wait>(self, rt: &R) {
        if let Some(open_client) = self.into_client() {
            let _ = open_client.terminate(rt);
        }
    }

    /// Terminates the agent, if there is one.
    pub fn end_by<R: Wait, O: Opener>(self, rt: &R, opener: &O) {
        if let Some(open_client) = self.into_client() {
            let _ = open_client.end(rt, opener);
        }
    }

    /// The client, if there is one. The tickets are gone, and hold no manager any more.
    fn into_client(self) -> Option<OpenClient> {
        let Peer {
            alloc: _alloc,
            session: _session,
            open_client,
            requests,
        } = self;
        drop(requests);
        open_client
    }
}
