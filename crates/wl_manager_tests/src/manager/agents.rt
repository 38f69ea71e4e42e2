//! Each call of an agent and of a ticket.

use super::desk::Act::{Query, Release, Request, SetActive};
use super::desk::Call;
use super::desk::Call::{Agent, DropTicket, Entries, Entry, LookOn, Open, Ticket};
use super::desk::Manner::{Exclusive, SharedIfAvailable, Stealing};
use super::desk::Use::{Look, Take, Watch};
use super::{assert_calls, audit_book};
use std::alloc::Global;
use std::process::Abort;
use std::sync::{Arc, Wait};
use std::test::Fail;
use wl_core::{PlainCore, ReleaseAnswer};
use wl_manager::{Count, Manager, Recent};
use wl_test_support::ask;
use wl_types::Kind::{Window, Worker};
use wl_types::{Ask, Mode, Refusal};

const ENTERED: &str = "Enter(Window), Agent(1)";

const ASKED: &str = "Request(1, Ask { name: Text { inner: \"db\" }, mode: Exclusive, \
    if_available: false, steal: false, signal: None }), Request(1)";

const ASKED_AND_RELEASED: &[(Call, &str)] = &[
    (Open(Window), "Ok(1)"),
    (Agent(1, Request("db", Exclusive)), "Ok(1)"),
    (Agent(1, Query), "2 entries, held db/exclusive/1, waiting"),
    (Entries, "2"),
    (Entry(1), ENTERED),
    (Entry(2), ASKED),
    (Agent(1, Release(1)), "Some(Released)"),
    (Entries, "3"),
    (Entry(1), ENTERED),
    (Entry(2), ASKED),
    (Entry(3), "Release(1, 1), Released(Released)"),
];

#[test]
fn an_agent_asks_for_just_what_it_was_given(rt: HostRuntime) -> Result<(), Fail> {
    Ok(assert_calls(&rt, rt.alloc(), ASKED_AND_RELEASED)?)
}

const STOLEN: &[(Call, &str)] = &[
    (Open(Window), "Ok(1)"),
    (Agent(1, Request("db", Exclusive)), "Ok(1)"),
    (Agent(1, Request("db", Stealing)), "Ok(2)"),
    (Ticket(2, Look), "Granted"),
    (Ticket(1, Take), "Before(Stolen)"),
    (Ticket(1, Look), "Stolen"),
    (Agent(1, Release(1)), "Some(NotHeld)"),
];

#[test]
fn a_lock_that_was_stolen_is_never_taken(rt: HostRuntime) -> Result<(), Fail> {
    Ok(assert_calls(&rt, rt.alloc(), STOLEN)?)
}

/// Whose ticket is gone by then, though the lock is held.
const STOLEN_BY_ANOTHER: &[(Call, &str)] = &[
    (Open(Window), "Ok(1)"),
    (Open(Window), "Ok(2)"),
    (Agent(1, Request("db", Exclusive)), "Ok(1)"),
    (Ticket(1, Watch), "Ok(())"),
    (LookOn(1), "Some(Granted)"),
    (Agent(2, Request("db", Stealing)), "Ok(2)"),
    (DropTicket, "Some(2)"),
    (LookOn(1), "Some(Stolen)"),
];

#[test]
fn a_watch_sees_that_another_agent_steals(rt: HostRuntime) -> Result<(), Fail> {
    Ok(assert_calls(&rt, rt.alloc(), STOLEN_BY_ANOTHER)?)
}

/// The ticket of the lock is gone by then, and the other one has its place.
const NOT_AVAILABLE: &[(Call, &str)] = &[
    (Open(Window), "Ok(1)"),
    (Agent(1, Request("db", Exclusive)), "Ok(1)"),
    (DropTicket, "Some(1)"),
    (Agent(1, Request("db", SharedIfAvailable)), "Ok(2)"),
    (Ticket(1, Look), "Unavailable"),
    (Ticket(1, Take), "Before(Unavailable)"),
];

#[test]
fn a_lock_that_is_not_available_is_not_waited_for(rt: HostRuntime) -> Result<(), Fail> {
    Ok(assert_calls(&rt, rt.alloc(), NOT_AVAILABLE)?)
}

const INACTIVE: &[(Call, &str)] = &[
    (Open(Window), "Ok(1)"),
    (Agent(1, Query), "1 entries, held, waiting"),
    (Open(Worker), "Ok(2)"),
    (Agent(1, SetActive(false)), "Ok(())"),
    (Agent(1, Request("db", Exclusive)), "Err(InvalidState)"),
    (Agent(2, SetActive(false)), "Err(NotAWindow)"),
    (Entries, "3"),
];

#[test]
fn an_inactive_window_asks_for_nothing(rt: HostRuntime) -> Result<(), Fail> {
    Ok(assert_calls(&rt, rt.alloc(), INACTIVE)?)
}

type Brief = Manager<PlainCore, Recent>;

type BriefAgent = wl_manager::Agent<PlainCore, Recent>;

fn ask_and_release<T: Count, R: Wait>(
    rt: &R,
    agent: &mut wl_manager::Agent<PlainCore, T>,
    asked: &Ask,
) -> Result<ReleaseAnswer, Refusal> {
    let mut ticket = agent.request(rt, asked)?;
    Ok(agent.release(rt, &mut ticket))
}

fn assert_released<R: Wait + Abort>(rt: &R, agent: &mut BriefAgent, asked: &Ask) {
    for _ in 0..1000 {
        assert_eq!(rt;
            ask_and_release(rt, agent, asked),
            Ok(ReleaseAnswer::Released)
        );
    }
}

/// Whether the journal is legal, how many entries it has, and how many the agent sees.
type Left = (bool, usize, u64);

fn count_left<R: Wait>(
    rt: &R,
    alloc: Global,
    manager: &Brief,
    agent: &mut BriefAgent,
) -> Result<Left, Refusal> {
    let seen = count_seen(rt, agent)?;
    let (is_legal, entries) = audit_book(rt, alloc, manager);
    Ok((is_legal, entries, seen))
}

fn count_seen<R: Wait>(rt: &R, agent: &mut BriefAgent) -> Result<u64, Refusal> {
    Ok(agent.query(rt)?.seen)
}

fn left_of_a_thousand<R: Wait + Abort>(
    rt: &R,
    alloc: Global,
    manager: &Arc<Brief, Global>,
    asked: &Ask,
) -> Result<Left, Refusal> {
    let mut agent = Manager::open(manager, rt, Window)?;
    assert_released(rt, &mut agent, asked);
    count_left(rt, alloc, manager, &mut agent)
}

#[test]
fn a_journal_that_is_cut_stays_short(rt: HostRuntime) -> Result<(), Fail> {
    let asked = ask(rt.alloc(), "db", Mode::Exclusive)?;
    let manager: Arc<Brief, Global> = Manager::new(&rt, rt.alloc(), (), (), ())?;
    let left = left_of_a_thousand(&rt, rt.alloc(), &manager, &asked);
    assert_eq!(rt; left, Ok((true, 51, 2001)));
    Ok(())
}
