//! A take and an abort of one granted lock, on two threads.

use crate::manager::plain::{PlainAgent, PlainManager, PlainTicket};
use std::alloc::Global;
use std::process::Abort;
use std::sync::Wait;
use std::test::Fail;
use std::thread;
use std::thread::Threads;
use wl_cell::Taking;
use wl_core::ReleaseAnswer;
use wl_test_support::ask;
use wl_types::{AbortAnswer, Ask, Kind, Mode, Phase, Reason, Refusal};

/// What the abort answers, what the take, where the request is then, and what a release answers.
type Outcome = (AbortAnswer, Taking, Phase, ReleaseAnswer);

const TAKE_WON: Outcome = (
    AbortAnswer::Done,
    Taking::Taken,
    Phase::Taken,
    ReleaseAnswer::Released,
);

fn abort_won(reason: Reason) -> Outcome {
    let aborted = Phase::Aborted(reason);
    (
        AbortAnswer::Done,
        Taking::Before(aborted),
        aborted,
        ReleaseAnswer::NotHeld,
    )
}

fn race<R: Threads + Wait + Sync>(
    rt: &R,
    agent: &mut PlainAgent,
    ticket: &mut PlainTicket,
    signal: u64,
    reason: Reason,
) -> (Result<AbortAnswer, Refusal>, Taking) {
    thread::join(
        rt,
        move || agent.abort(rt, signal, reason),
        move || ticket.take(),
    )
}

/// A race over a new lock, with a new signal.
fn race_anew<R: Threads + Wait + Sync>(
    rt: &R,
    agent: &mut PlainAgent,
    asked: &mut Ask,
    reason: Reason,
) -> Result<Outcome, Refusal> {
    let signal = agent.new_signal(rt)?;
    asked.signal = Some(signal);
    let mut ticket = agent.request(rt, asked)?;
    race_to_the_end(rt, agent, &mut ticket, signal, reason)
}

/// A race, and then a look and a release.
fn race_to_the_end<R: Threads + Wait + Sync>(
    rt: &R,
    agent: &mut PlainAgent,
    ticket: &mut PlainTicket,
    signal: u64,
    reason: Reason,
) -> Result<Outcome, Refusal> {
    let (aborted, taking) = race(rt, agent, ticket, signal, reason);
    let phase = ticket.look();
    Ok((aborted?, taking, phase, agent.release(rt, ticket)))
}

/// Exactly one of the two wins, and a lock that was taken is given up. Answers how often the take won.
fn assert_one_wins<R: Threads + Wait + Abort + Sync>(
    rt: &R,
    agent: &mut PlainAgent,
    asked: &mut Ask,
    reason: Reason,
) -> Result<usize, Refusal> {
    let mut taken: usize = 0;
    for _ in 0..1000 {
        let outcome = race_anew(rt, agent, asked, reason)?;
        if outcome == TAKE_WON {
            taken = taken.wrapping_add(1);
        } else {
            assert_eq!(rt; outcome, abort_won(reason));
        }
    }
    Ok(taken)
}

/// The same in a new manager, whose journal is legal then. It has an entry of the opening; of each race those of the
/// signal, the request and the abort; and of each take that won, its own and the release's.
fn assert_legal_races<R: Threads + Wait + Abort + Sync>(
    rt: &R,
    alloc: Global,
    reason: Reason,
) -> Result<(), Fail> {
    let manager = PlainManager::new(rt, alloc)?;
    let mut agent = manager.open(rt, Kind::Window)?;
    let mut asked = ask(alloc, "db", Mode::Exclusive)?;
    let taken = assert_one_wins(rt, &mut agent, &mut asked, reason)?;
    assert_eq!(rt;
        manager.audit_book(rt, alloc),
        (true, taken.wrapping_mul(2).wrapping_add(3001))
    );
    Ok(())
}

#[test]
fn a_take_and_an_abort_race_a_thousand_times(rt: HostRuntime) -> Result<(), Fail> {
    assert_legal_races(&rt, rt.alloc(), Reason::AbortError)
}

#[test]
fn a_take_and_an_abort_with_a_code_race_a_thousand_times(rt: HostRuntime) -> Result<(), Fail> {
    assert_legal_races(&rt, rt.alloc(), Reason::Code(0))
}
