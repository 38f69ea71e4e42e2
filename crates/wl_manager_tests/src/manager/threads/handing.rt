//! A lock that goes from one agent to the next while a thread looks on.

use crate::manager::plain::{PlainAgent, PlainManager, PlainTicket};
use std::alloc::Global;
use std::process::Abort;
use std::sync::Wait;
use std::test::Fail;
use std::thread;
use std::thread::Threads;
use wl_cell::Watch;
use wl_core::ReleaseAnswer;
use wl_test_support::ask;
use wl_types::{Ask, Kind, Mode, Phase};

/// What the first agent's release answers, what the watch of its ticket sees once the second has the lock, and what
/// the second's release answers.
type Handing = (ReleaseAnswer, Phase, ReleaseAnswer);

const ENDED_BEFORE: Handing = (
    ReleaseAnswer::Released,
    Phase::Released,
    ReleaseAnswer::Released,
);

/// Looks until the ticket isn't Pending, and then at the watch. Pending where that never came.
fn look_twice(ticket: &mut PlainTicket, watch: &mut Watch) -> Phase {
    for _ in 0..100_000_000 {
        if ticket.look() != Phase::Pending {
            return watch.look();
        }
        thread::yield_now();
    }
    Phase::Pending
}

fn release_and_look<R: Threads + Wait + Sync>(
    rt: &R,
    one: &mut PlainAgent,
    first: &mut PlainTicket,
    second: &mut PlainTicket,
    watch: &mut Watch,
) -> (ReleaseAnswer, Phase) {
    thread::join(
        rt,
        move || one.release(rt, first),
        move || look_twice(second, watch),
    )
}

fn hand_over<R: Threads + Wait + Sync>(
    rt: &R,
    one: &mut PlainAgent,
    two: &mut PlainAgent,
    asked: &Ask,
) -> Result<Handing, Fail> {
    let mut first = one.request(rt, asked)?;
    let mut second = two.request(rt, asked)?;
    let mut watch = first.watch()?;
    let (released, seen) = release_and_look(rt, one, &mut first, &mut second, &mut watch);
    Ok((released, seen, two.release(rt, &mut second)))
}

/// Whoever sees the grant sees the end.
fn assert_end_is_seen<R: Threads + Wait + Abort + Sync>(
    rt: &R,
    one: &mut PlainAgent,
    two: &mut PlainAgent,
    asked: &Ask,
) -> Result<(), Fail> {
    for _ in 0..1000 {
        assert_eq!(rt; hand_over(rt, one, two, asked)?, ENDED_BEFORE);
    }
    Ok(())
}

/// The same between two new agents. They are there while the journal is audited.
fn audit_handings<R: Threads + Wait + Abort + Sync>(
    rt: &R,
    alloc: Global,
    manager: &PlainManager,
    asked: &Ask,
) -> Result<(bool, usize), Fail> {
    let mut one = manager.open(rt, Kind::Window)?;
    let mut two = manager.open(rt, Kind::Window)?;
    assert_end_is_seen(rt, &mut one, &mut two, asked)?;
    Ok(manager.audit_book(rt, alloc))
}

#[test]
fn ends_are_settled_before_grants(rt: HostRuntime) -> Result<(), Fail> {
    let manager = PlainManager::new(&rt, rt.alloc())?;
    let asked = ask(rt.alloc(), "db", Mode::Exclusive)?;
    let audit = audit_handings(&rt, rt.alloc(), &manager, &asked)?;
    assert_eq!(rt; audit, (true, 4002));
    Ok(())
}
