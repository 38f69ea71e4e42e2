//! Managers over the plain core that count no shares, with their agents and tickets, as types that have no parameters.
//!
//! Wherever a type with parameters is owned or passed on, the checker writes out all of them; these are a name each.

use super::{Sum, audit_book, sum_up};
use std::alloc::Global;
use std::sync::{Arc, Wait};
use wl_cell::{Taking, Watch};
use wl_core::{PlainCore, ReleaseAnswer};
use wl_journal::Sight;
use wl_manager::{Agent, Bell, CoarseClock, LockList, Loose, Manager, Ticket, Visitor};
use wl_types::{AbortAnswer, Ask, Kind, Memory, Phase, Reason, Refusal};

#[derive(Drop)]
pub struct PlainManager {
    manager: Arc<Manager<PlainCore, Loose>>,
}

impl PlainManager {
    pub fn new<R>(rt: &R, alloc: Global) -> Result<PlainManager, Memory> {
        let manager = Manager::new(rt, alloc, (), (), ())?;
        Ok(PlainManager { manager })
    }

    pub fn with_clock<R>(
        rt: &R,
        alloc: Global,
        clock: CoarseClock,
    ) -> Result<PlainManager, Memory> {
        let manager = Manager::with_clock(rt, alloc, (), (), (), Some(clock))?;
        Ok(PlainManager { manager })
    }

    pub fn open<R: Wait>(&self, rt: &R, kind: Kind) -> Result<PlainAgent, Refusal> {
        let agent = Manager::open(&self.manager, rt, kind)?;
        Ok(PlainAgent { agent })
    }

    pub fn open_heard<R: Wait>(
        &self,
        rt: &R,
        kind: Kind,
        bell: Bell,
    ) -> Result<PlainAgent, Refusal> {
        let agent = Manager::open_heard(&self.manager, rt, kind, Some(bell))?;
        Ok(PlainAgent { agent })
    }

    pub fn list_locks<R: Wait>(&self, rt: &R, most: usize, now: u64) -> Result<LockList, Memory> {
        self.manager.list_locks(rt, most, now)
    }

    pub fn visit<R: Wait, V: Visitor>(&self, rt: &R, visitor: &mut V) {
        self.manager.visit(rt, visitor);
    }

    pub fn sum_up<R: Wait>(&self, rt: &R) -> Sum {
        sum_up(rt, &self.manager)
    }

    pub fn audit_book<R: Wait>(&self, rt: &R, alloc: Global) -> (bool, usize) {
        audit_book(rt, alloc, &self.manager)
    }
}

#[derive(Drop)]
pub struct PlainAgent {
    agent: Agent<PlainCore, Loose>,
}

impl PlainAgent {
    pub fn client(&self) -> u64 {
        self.agent.client()
    }

    pub fn changed_requests(&self, numbers: &mut Vec<u64>) -> bool {
        self.agent.changed_requests(numbers)
    }

    pub fn is_rung(&self) -> bool {
        self.agent.is_rung()
    }

    pub fn silence_bell(&self) {
        self.agent.silence_bell();
    }

    pub fn request<R: Wait>(&mut self, rt: &R, asked: &Ask) -> Result<PlainTicket, Refusal> {
        let ticket = self.agent.request(rt, asked)?;
        Ok(PlainTicket { ticket })
    }

    pub fn release<R: Wait>(&mut self, rt: &R, ticket: &mut PlainTicket) -> ReleaseAnswer {
        self.agent.release(rt, &mut ticket.ticket)
    }

    pub fn new_signal<R: Wait>(&mut self, rt: &R) -> Result<u64, Refusal> {
        self.agent.new_signal(rt)
    }

    pub fn abort<R: Wait>(
        &mut self,
        rt: &R,
        signal: u64,
        reason: Reason,
    ) -> Result<AbortAnswer, Refusal> {
        self.agent.abort(rt, signal, reason)
    }

    pub fn set_active<R: Wait>(&mut self, rt: &R, active: bool) -> Result<(), Refusal> {
        self.agent.set_active(rt, active)
    }

    pub fn query<R: Wait>(&mut self, rt: &R) -> Result<Sight, Refusal> {
        self.agent.query(rt)
    }

    pub fn terminate<R: Wait>(self, rt: &R) {
        let PlainAgent { agent } = self;
        drop(agent.terminate(rt));
    }
}

#[derive(Drop)]
pub struct PlainTicket {
    ticket: Ticket<PlainCore, Loose>,
}

impl PlainTicket {
    pub fn number(&self) -> u64 {
        self.ticket.number()
    }

    pub fn look(&mut self) -> Phase {
        self.ticket.look()
    }

    pub fn take(&mut self) -> Taking {
        self.ticket.take()
    }

    pub fn watch(&mut self) -> Result<Watch, Memory> {
        self.ticket.watch()
    }
}
