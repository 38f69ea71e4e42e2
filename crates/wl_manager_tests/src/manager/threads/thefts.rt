//! A take and a steal of one granted lock, on two threads.

use crate::manager::plain::{PlainAgent, PlainManager, PlainTicket};
use std::alloc::Global;
use std::process::Abort;
use std::sync::Wait;
use std::test::Fail;
use std::thread;
use std::thread::Threads;
use wl_cell::Taking;
use wl_core::ReleaseAnswer;
use wl_test_support::ask;
use wl_types::{Ask, Kind, Memory, Mode, Phase, Refusal, Text};

/// What the take answers, where the request is then, and what the thief's release answers.
type Outcome = (Taking, Phase, ReleaseAnswer);

/// The lock is stolen in any case, and the thief has it.
fn theft_outcome(taking: Taking) -> Outcome {
    (taking, Phase::Stolen, ReleaseAnswer::Released)
}

fn race<R: Threads + Wait + Sync>(
    rt: &R,
    ticket: &mut PlainTicket,
    thief: &mut PlainAgent,
    stealing: &Ask,
) -> (Taking, Result<PlainTicket, Refusal>) {
    thread::join(
        rt,
        move || ticket.take(),
        move || thief.request(rt, stealing),
    )
}

/// A race over a new lock.
fn race_anew<R: Threads + Wait + Sync>(
    rt: &R,
    agent: &mut PlainAgent,
    asked: &Ask,
    thief: &mut PlainAgent,
    stealing: &Ask,
) -> Result<Outcome, Refusal> {
    let mut ticket = agent.request(rt, asked)?;
    let (taking, theirs) = race(rt, &mut ticket, thief, stealing);
    let mut theirs = theirs?;
    Ok((taking, ticket.look(), thief.release(rt, &mut theirs)))
}

fn assert_thefts<R: Threads + Wait + Abort + Sync>(
    rt: &R,
    manager: &PlainManager,
    asked: &Ask,
    stealing: &Ask,
) -> Result<(), Refusal> {
    let mut agent = manager.open(rt, Kind::Window)?;
    let mut thief = manager.open(rt, Kind::Window)?;
    for _ in 0..1000 {
        let outcome = race_anew(rt, &mut agent, asked, &mut thief, stealing)?;
        assert!(rt;
            outcome == theft_outcome(Taking::Taken)
                || outcome == theft_outcome(Taking::Before(Phase::Stolen)),
            "{outcome:?}"
        );
    }
    Ok(())
}

fn theft(alloc: Global) -> Result<Ask, Memory> {
    Ok(Ask {
        name: Text::of(alloc, "db")?,
        mode: Mode::Exclusive,
        if_available: false,
        steal: true,
        signal: None,
    })
}

#[test]
fn a_take_and_a_theft_race_a_thousand_times(rt: HostRuntime) -> Result<(), Fail> {
    let manager = PlainManager::new(&rt, rt.alloc())?;
    let asked = ask(rt.alloc(), "db", Mode::Exclusive)?;
    assert_thefts(&rt, &manager, &asked, &theft(rt.alloc())?)?;
    assert_eq!(rt; manager.audit_book(&rt, rt.alloc()), (true, 3002));
    assert_eq!(rt; manager.sum_up(&rt).takes, 0);
    Ok(())
}
