//! Calls of a manager, its agents, tickets and watches.

use super::plain::{PlainAgent, PlainManager, PlainTicket};
use crate::rows::{Driver, show};
use std::alloc::Global;
use std::sync::{Arc, Wait};
use wl_cell::Watch;
use wl_core::{ReleaseAnswer, Reply};
use wl_journal::{Entry, Sight};
use wl_manager::{Alarm, Bell, Ring, Visitor};
use wl_test_support::ask;
use wl_types::{Ask, Kind, Memory, Mode, Phase, Reason, Refusal};

/// Agents, tickets, watches and entries are called by their places among those that there are, from 1.
#[derive(Clone, Copy, Debug, Drop)]
pub enum Call {
    /// The new agent's number.
    Open(Kind),
    /// The same, of an agent whose bell is at its place in the desk's ring.
    OpenHeard(Kind),
    Agent(usize, Act),
    Ticket(usize, Use),
    /// The last ticket is dropped; its number.
    DropTicket,
    /// A look by a watch.
    LookOn(usize),
    /// Whether a bell rang since the last such call, and the places of those that did.
    Ring,
    /// Whether the alarm of the desk's ring was raised since the last such call.
    Alarm,
    /// How many there are.
    Entries,
    /// The command and the reply.
    Entry(usize),
}

/// What an agent does.
#[derive(Clone, Copy, Debug, Drop)]
pub enum Act {
    SetActive(bool),
    Signal,
    /// Of this name. The number of the new ticket.
    Request(&'static str, Manner),
    /// How many entries the agent sees, and the locks.
    Query,
    IsRung,
    /// Whether it is rung then.
    SilenceBell,
    /// The numbers of the requests that changed, where these are all.
    Changed,
    /// Of the ticket at this place.
    Release(usize),
    /// Of the signal of this number.
    Abort(u64, Reason),
}

/// What is done with a ticket.
#[derive(Clone, Copy, Debug, Drop)]
pub enum Use {
    Look,
    Take,
    /// A new watch.
    Watch,
}

/// How a lock is asked for.
#[derive(Clone, Copy, Debug, Drop)]
pub enum Manner {
    Exclusive,
    Signalled(u64),
    Stealing,
    SharedIfAvailable,
}

/// A manager, and all that was made of it.
#[derive(Drop)]
pub struct Desk {
    alloc: Global,
    manager: PlainManager,
    alarm: Alarm,
    ring: Arc<Ring>,
    agents: Vec<PlainAgent>,
    tickets: Vec<PlainTicket>,
    watches: Vec<Watch>,
}

impl Desk {
    pub fn new(alloc: Global, manager: PlainManager) -> Result<Desk, Memory> {
        let alarm = Alarm::new(alloc)?;
        let ring = Ring::with_alarm(alloc, alarm.share()?);
        Ok(Desk {
            alloc,
            manager,
            alarm,
            ring: Arc::new(alloc, ring)?,
            agents: Vec::new(alloc),
            tickets: Vec::new(alloc),
            watches: Vec::new(alloc),
        })
    }

    fn open<R: Wait>(&mut self, rt: &R, kind: Kind) -> Result<u64, Refusal> {
        let agent = self.manager.open(rt, kind)?;
        self.seat(agent)
    }

    fn open_heard<R: Wait>(&mut self, rt: &R, kind: Kind) -> Result<u64, Refusal> {
        let place = (self.agents.len() as u64).wrapping_add(1);
        let Ok(bell) = Bell::new(self.alloc, &self.ring, place) else {
            return Err(Refusal::Memory);
        };
        let agent = self.manager.open_heard(rt, kind, bell)?;
        self.seat(agent)
    }

    /// The agent's number.
    fn seat(&mut self, agent: PlainAgent) -> Result<u64, Refusal> {
        let number = agent.client();
        keep(&mut self.agents, agent)?;
        Ok(number)
    }

    fn show_rung(&self) -> Result<String, Memory> {
        let is_rung = self.ring.take_rung();
        let mut places = Vec::new(self.alloc);
        let is_all = self.ring.collect(&mut places);
        shown_numbers(self.alloc, is_rung && is_all, places)
    }

    fn act<R: Wait>(&mut self, rt: &R, place: usize, act: Act) -> Result<String, Memory> {
        match at(&mut self.agents, place) {
            Some(agent) => act_by(rt, self.alloc, agent, &mut self.tickets, act),
            None => nobody(self.alloc),
        }
    }

    fn use_ticket(&mut self, place: usize, used: Use) -> Result<String, Memory> {
        match at(&mut self.tickets, place) {
            Some(ticket) => use_of(self.alloc, ticket, &mut self.watches, used),
            None => nobody(self.alloc),
        }
    }

    fn drop_last(&mut self) -> Option<u64> {
        let ticket = self.tickets.pop()?;
        Some(ticket.number())
    }

    fn look_on(&mut self, place: usize) -> Option<Phase> {
        let watch = at(&mut self.watches, place)?;
        Some(watch.look())
    }

    fn entry<R: Wait>(&self, rt: &R, number: usize) -> String {
        let mut line = Line {
            alloc: self.alloc,
            number,
            text: String::new(self.alloc),
        };
        self.manager.visit(rt, &mut line);
        line.text
    }
}

impl Driver for Desk {
    type Call = Call;

    fn answer<R: Wait>(&mut self, rt: &R, call: &Call) -> Result<String, Memory> {
        let alloc = self.alloc;
        match *call {
            Call::Open(kind) => show(alloc, &self.open(rt, kind)),
            Call::OpenHeard(kind) => show(alloc, &self.open_heard(rt, kind)),
            Call::Agent(place, act) => self.act(rt, place, act),
            Call::Ticket(place, used) => self.use_ticket(place, used),
            Call::DropTicket => show(alloc, &self.drop_last()),
            Call::LookOn(place) => show(alloc, &self.look_on(place)),
            Call::Ring => self.show_rung(),
            Call::Alarm => show(alloc, &self.alarm.take()),
            Call::Entries => show(alloc, &self.manager.sum_up(rt).entries),
            Call::Entry(number) => Ok(self.entry(rt, number)),
        }
    }
}

fn at<T>(made: &mut Vec<T>, place: usize) -> Option<&mut T> {
    made.as_mut_slice().get_mut(place.wrapping_sub(1))
}

fn keep<T: Drop>(made: &mut Vec<T>, one: T) -> Result<(), Refusal> {
    match made.push(one) {
        Ok(()) => Ok(()),
        Err(_) => Err(Refusal::Memory),
    }
}

fn nobody(alloc: Global) -> Result<String, Memory> {
    Ok("nobody is there".to_string(alloc)?)
}

fn act_by<R: Wait>(
    rt: &R,
    alloc: Global,
    agent: &mut PlainAgent,
    tickets: &mut Vec<PlainTicket>,
    act: Act,
) -> Result<String, Memory> {
    match act {
        Act::SetActive(active) => show(alloc, &agent.set_active(rt, active)),
        Act::Signal => show(alloc, &agent.new_signal(rt)),
        Act::Request(name, manner) => {
            let asked = make_ask(alloc, name, manner)?;
            show(alloc, &request(rt, agent, tickets, &asked))
        }
        Act::Query => show_sight(alloc, agent.query(rt)),
        Act::IsRung => show(alloc, &agent.is_rung()),
        Act::SilenceBell => {
            agent.silence_bell();
            show(alloc, &agent.is_rung())
        }
        Act::Changed => changed_requests(alloc, agent),
        Act::Release(place) => show(alloc, &release(rt, agent, tickets, place)),
        Act::Abort(signal, reason) => show(alloc, &agent.abort(rt, signal, reason)),
    }
}

/// The number of the new ticket, which comes last in the list.
pub fn request<R: Wait>(
    rt: &R,
    agent: &mut PlainAgent,
    tickets: &mut Vec<PlainTicket>,
    asked: &Ask,
) -> Result<u64, Refusal> {
    let ticket = agent.request(rt, asked)?;
    let number = ticket.number();
    keep(tickets, ticket)?;
    Ok(number)
}

fn release<R: Wait>(
    rt: &R,
    agent: &mut PlainAgent,
    tickets: &mut Vec<PlainTicket>,
    place: usize,
) -> Option<ReleaseAnswer> {
    let ticket = at(tickets, place)?;
    Some(agent.release(rt, ticket))
}

fn changed_requests(alloc: Global, agent: &PlainAgent) -> Result<String, Memory> {
    let mut numbers = Vec::new(alloc);
    let is_all = agent.changed_requests(&mut numbers);
    shown_numbers(alloc, is_all, numbers)
}

/// Numbers in order, where they are all.
fn shown_numbers(alloc: Global, are_all: bool, numbers: Vec<u64>) -> Result<String, Memory> {
    let mut numbers = numbers;
    numbers.sort_unstable();
    let all = if are_all {
        Some(numbers.as_slice())
    } else {
        None
    };
    show(alloc, &all)
}

fn use_of(
    alloc: Global,
    ticket: &mut PlainTicket,
    watches: &mut Vec<Watch>,
    used: Use,
) -> Result<String, Memory> {
    match used {
        Use::Look => show(alloc, &ticket.look()),
        Use::Take => show(alloc, &ticket.take()),
        Use::Watch => show(alloc, &keep(watches, ticket.watch()?)),
    }
}

fn make_ask(alloc: Global, name: &str, manner: Manner) -> Result<Ask, Memory> {
    let mut asked = ask(alloc, name, Mode::Exclusive)?;
    match manner {
        Manner::Exclusive => {}
        Manner::Signalled(signal) => asked.signal = Some(signal),
        Manner::Stealing => asked.steal = true,
        Manner::SharedIfAvailable => {
            asked.mode = Mode::Shared;
            asked.if_available = true;
        }
    }
    Ok(asked)
}

fn show_sight(alloc: Global, sight: Result<Sight, Refusal>) -> Result<String, Memory> {
    let Ok(Sight { seen, snapshot }) = sight else {
        return Ok("refused".to_string(alloc)?);
    };
    let locks = wl_test_support::show(alloc, &Reply::Seen(snapshot))?;
    Ok(format!(in alloc; "{seen} entries, {}", locks.as_str())?)
}

/// One entry of a journal, by its number. The text stays empty where there is none.
#[derive(Drop)]
struct Line {
    alloc: Global,
    number: usize,
    text: String,
}

impl Visitor for Line {
    fn visit(&mut self, entries: &[Entry]) {
        if let Some(entry) = entries.get(self.number.wrapping_sub(1)) {
            self.text = show_entry(self.alloc, entry).unwrap_or(String::new(self.alloc));
        }
    }
}

fn show_entry(alloc: Global, entry: &Entry) -> Result<String, Memory> {
    Ok(format!(in alloc; "{:?}, {:?}", entry.command, entry.reply)?)
}
