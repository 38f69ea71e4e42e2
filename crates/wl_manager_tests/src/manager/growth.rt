//! Each growth refused in turn.

use super::plain::{PlainAgent, PlainManager, PlainTicket};
use std::alloc::Global;
use std::sync::Wait;
use std::test::Fail;
use wl_cell::cell;
use wl_manager::CoarseClock;
use wl_test_support::{ask, fail_refused};
use wl_types::{AbortAnswer, Ask, Kind, Mode, Phase, Reason};

fn try_open<R: Wait>(rt: &R, manager: &PlainManager) -> Result<PlainAgent, Fail> {
    if let Ok(agent) = manager.open(rt, Kind::Window) {
        return Ok(agent);
    }
    let is_empty = manager.sum_up(rt).entries == 0;
    let agent = manager.open(rt, Kind::Window)?;
    fail_refused(is_empty && agent.client() == 1 && manager.sum_up(rt).entries == 1)?;
    Ok(agent)
}

fn try_signal<R: Wait>(rt: &R, manager: &PlainManager, agent: &mut PlainAgent) -> Result<(), Fail> {
    if agent.new_signal(rt).is_ok() {
        return Ok(());
    }
    let is_opened_alone = manager.sum_up(rt).entries == 1;
    let signal = agent.new_signal(rt)?;
    fail_refused(is_opened_alone && signal == 1 && manager.sum_up(rt).entries == 2)
}

fn try_request<R: Wait>(
    rt: &R,
    manager: &PlainManager,
    agent: &mut PlainAgent,
    wanted: &Ask,
) -> Result<(), Fail> {
    if agent.request(rt, wanted).is_ok() {
        return Ok(());
    }
    let has_no_request = manager.sum_up(rt).entries == 2;
    let number = agent.request(rt, wanted)?.number();
    fail_refused(has_no_request && number == 1 && manager.sum_up(rt).entries == 3)
}

fn try_active<R: Wait>(rt: &R, manager: &PlainManager, agent: &mut PlainAgent) -> Result<(), Fail> {
    if agent.set_active(rt, true).is_ok() {
        return Ok(());
    }
    let is_not_entered = manager.sum_up(rt).entries == 3;
    agent.set_active(rt, true)?;
    fail_refused(is_not_entered && agent.query(rt)?.seen == 4)
}

fn try_query<R: Wait>(rt: &R, agent: &mut PlainAgent) -> Result<(), Fail> {
    if agent.query(rt).is_ok() {
        return Ok(());
    }
    fail_refused(agent.query(rt)?.seen == 4)
}

/// Refused memory, a list is no entry, and names the same lock when it is asked for again.
fn try_list<R: Wait>(rt: &R, manager: &PlainManager) -> Result<(), Fail> {
    if manager.list_locks(rt, 10, 0).is_ok() {
        return Ok(());
    }
    let is_not_entered = manager.sum_up(rt).entries == 4;
    let list = manager.list_locks(rt, 10, 0)?;
    let is_first = list.held.first().is_some_and(|row| row.request == 1);
    fail_refused(is_not_entered && is_first && list.held.len() == 1 && list.left_out == 0)
}

fn try_clock(alloc: Global) -> Result<(), Fail> {
    if CoarseClock::new(alloc).is_ok() {
        return Ok(());
    }
    fail_refused(CoarseClock::new(alloc).is_ok())
}

fn try_manager<R: Wait>(rt: &R, alloc: Global) -> Result<PlainManager, Fail> {
    if let Ok(manager) = PlainManager::new(rt, alloc) {
        return Ok(manager);
    }
    let manager = PlainManager::new(rt, alloc)?;
    fail_refused(manager.sum_up(rt).entries == 0)?;
    Ok(manager)
}

fn try_cell(alloc: Global) -> Result<(), Fail> {
    if cell(alloc).is_ok() {
        return Ok(());
    }
    fail_refused(cell(alloc).is_ok())
}

fn try_calls<R: Wait>(rt: &R, alloc: Global) -> Result<(), Fail> {
    try_cell(alloc)?;
    try_clock(alloc)?;
    let manager = try_manager(rt, alloc)?;
    let mut agent = try_open(rt, &manager)?;
    try_signal(rt, &manager, &mut agent)?;
    let wanted = ask(alloc, "db", Mode::Exclusive)?;
    try_request(rt, &manager, &mut agent, &wanted)?;
    try_active(rt, &manager, &mut agent)?;
    try_query(rt, &mut agent)?;
    try_list(rt, &manager)
}

/// Agents of one manager, and the tickets of their requests, in the order in which they were asked.
#[derive(Drop)]
struct Table {
    alloc: Global,
    agents: Vec<PlainAgent>,
    tickets: Vec<PlainTicket>,
}

impl Table {
    /// With three agents.
    fn new<R: Wait>(rt: &R, alloc: Global) -> Result<Table, Fail> {
        let manager = PlainManager::new(rt, alloc)?;
        let mut agents = Vec::new(alloc);
        for _ in 0..3 {
            agents.push(manager.open(rt, Kind::Window)?)?;
        }
        let tickets = Vec::new(alloc);
        Ok(Table {
            alloc,
            agents,
            tickets,
        })
    }

    fn agent(&mut self, place: usize) -> Result<&mut PlainAgent, Fail> {
        match self.agents.get_mut(place) {
            Some(agent) => Ok(agent),
            None => Err(Fail::new("nobody is there")),
        }
    }

    fn request<R: Wait>(
        &mut self,
        rt: &R,
        place: usize,
        name: &str,
        mode: Mode,
        signal: Option<u64>,
    ) -> Result<(), Fail> {
        let mut wanted = ask(self.alloc, name, mode)?;
        wanted.signal = signal;
        let ticket = self.agent(place)?.request(rt, &wanted)?;
        Ok(self.tickets.push(ticket)?)
    }

    /// Whether the requests are at these phases, without memory.
    fn has_phases(&mut self, wanted: &[Phase]) -> bool {
        let mut places = 0..wanted.len();
        places.all(|place| match self.tickets.get_mut(place) {
            Some(ticket) => wanted.get(place) == Some(&ticket.look()),
            None => false,
        })
    }
}

const ABORTED: Phase = Phase::Aborted(Reason::AbortError);

/// An abort needs no memory, and ends the second and the third request; what waited behind them is granted.
fn abort_ends_what_waits<R: Wait>(rt: &R, table: &mut Table) -> Result<bool, Fail> {
    table.request(rt, 0, "db", Mode::Shared, None)?;
    let signal = table.agent(1)?.new_signal(rt)?;
    table.request(rt, 1, "db", Mode::Exclusive, Some(signal))?;
    table.request(rt, 1, "db", Mode::Shared, Some(signal))?;
    table.request(rt, 2, "db", Mode::Shared, None)?;
    let answer = table.agent(1)?.abort(rt, signal, Reason::AbortError);
    let wanted = [Phase::Granted, ABORTED, ABORTED, Phase::Granted];
    Ok(answer == Ok(AbortAnswer::Done) && table.has_phases(&wanted))
}

/// The end of the third agent needs no memory: its lock is released, its request aborted, and what waited is granted.
fn an_end_ends_all<R: Wait>(rt: &R, table: &mut Table) -> Result<bool, Fail> {
    table.request(rt, 0, "p", Mode::Shared, None)?;
    table.request(rt, 2, "q", Mode::Exclusive, None)?;
    table.request(rt, 2, "p", Mode::Exclusive, None)?;
    table.request(rt, 1, "p", Mode::Shared, None)?;
    table.request(rt, 0, "q", Mode::Exclusive, None)?;
    let Some(last) = table.agents.pop() else {
        return Ok(false);
    };
    last.terminate(rt);
    let granted = Phase::Granted;
    Ok(table.has_phases(&[granted, Phase::Released, ABORTED, granted, granted]))
}

#[test]
fn a_refused_growth_is_not_entered(rt: HostRuntime) -> Result<(), Fail> {
    try_calls(&rt, rt.alloc())?;
    assert!(rt; abort_ends_what_waits(&rt, &mut Table::new(&rt, rt.alloc())?)?);
    assert!(rt; an_end_ends_all(&rt, &mut Table::new(&rt, rt.alloc())?)?);
    Ok(())
}
