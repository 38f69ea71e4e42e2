//! Two agents that take turns at one lock, each in a thread, and the count of all their entries.

ghost use Rattle.std.specs.Prelude.{◌≡◌, ◌≤◌, ◌^◌};

use crate::manager::sum_up;
use std::alloc::Global;
use std::marker::Brand;
use std::process::Abort;
use std::sync::ledger::{Blank, Ledger};
use std::sync::{Arc, Wait};
use std::test::Fail;
use std::thread;
use std::thread::Threads;
use wl_cell::Taking;
use wl_core::{PlainCore, ReleaseAnswer};
use wl_manager::{Agent, Count, Leaving, Ledgered, Manager, TallyFault, Ticket};
use wl_test_support::ask;
use wl_types::{Ask, Kind, Memory, Mode, Phase, Refusal};

pub type Counted<L> = Manager<PlainCore, Ledgered<L>>;

pub type CountedAgent<L> = Agent<PlainCore, Ledgered<L>>;

type Pair<L> = (Leaving<Ledgered<L>>, Leaving<Ledgered<L>>);

/// What a wait, a take and a release answer.
type Turn = (Phase, Taking, ReleaseAnswer);

const WHOLE: Turn = (Phase::Granted, Taking::Taken, ReleaseAnswer::Released);

fn use_lock<T: Count, R: Wait>(
    rt: &R,
    agent: &mut Agent<PlainCore, T>,
    ticket: &mut Ticket<PlainCore, T>,
) -> Turn {
    let (phase, taking) = take_lock(rt, ticket);
    (phase, taking, agent.release(rt, ticket))
}

fn take_lock<T: Count, R: Wait>(rt: &R, ticket: &mut Ticket<PlainCore, T>) -> (Phase, Taking) {
    let phase = ticket.wait(rt);
    (phase, ticket.take())
}

fn take_turn<T: Count, R: Wait>(
    rt: &R,
    agent: &mut Agent<PlainCore, T>,
    asked: &Ask,
) -> Result<Turn, Refusal> {
    let mut ticket = agent.request(rt, asked)?;
    Ok(use_lock(rt, agent, &mut ticket))
}

fn assert_turns<T: Count, R: Wait + Abort>(rt: &R, agent: &mut Agent<PlainCore, T>, asked: &Ask) {
    for _ in 0..100 {
        assert_eq!(rt; take_turn(rt, agent, asked), Ok(WHOLE));
    }
}

/// A hundred times the agent asks, waits, takes and gives up. Then it ends.
fn rounds<T: Count, R: Wait + Abort>(
    rt: &R,
    asked: &Ask,
    agent: Agent<PlainCore, T>,
) -> Leaving<T> {
    let mut agent = agent;
    assert_turns(rt, &mut agent, asked);
    agent.terminate(rt)
}

fn rounds_of_both<L: Ledger + Send + Sync, R: Threads + Wait + Abort + Sync>(
    rt: &R,
    asked: &Ask,
    one: CountedAgent<L>,
    two: CountedAgent<L>,
) -> Pair<L> {
    thread::join(rt, || rounds(rt, asked, one), || rounds(rt, asked, two))
}

/// Two agents contend for one name.
fn contend<L: Ledger + Send + Sync, R: Threads + Wait + Abort + Sync>(
    rt: &R,
    manager: &Arc<Counted<L>, Global>,
    asked: &Ask,
) -> Result<Pair<L>, Refusal> {
    let one = Manager::open(manager, rt, Kind::Window)?;
    let two = Manager::open(manager, rt, Kind::Window)?;
    Ok(rounds_of_both(rt, asked, one, two))
}

fn with<T: Count>(left: Vec<Leaving<T>>, leaving: Leaving<T>) -> Result<Vec<Leaving<T>>, Memory> {
    let mut left = left;
    left.push(leaving)?;
    Ok(left)
}

/// What a tally hands back that misses somebody.
fn hand_back<T: Count, R: Wait>(
    rt: &R,
    manager: &Manager<PlainCore, T>,
    left: Vec<Leaving<T>>,
) -> Result<Vec<Leaving<T>>, Fail> {
    match manager.tally(rt, left) {
        Err(TallyFault::Missing(left)) => Ok(left),
        Ok(_) => Err(Fail::new("a tally of one of two")),
    }
}

fn tally_all<T: Count, R: Wait>(
    rt: &R,
    manager: &Manager<PlainCore, T>,
    left: Vec<Leaving<T>>,
) -> Option<u64> {
    manager.tally(rt, left).ok()
}

/// A tally of one, which misses the other, then of both, and then of nobody more.
fn tallies<T: Count, R: Wait>(
    rt: &R,
    alloc: Global,
    manager: &Manager<PlainCore, T>,
    pair: (Leaving<T>, Leaving<T>),
) -> Result<(Option<u64>, Option<u64>), Fail> {
    let (one, two) = pair;
    let left = hand_back(rt, manager, with(Vec::new(alloc), one)?)?;
    let both = with(left, two)?;
    Ok((
        tally_all(rt, manager, both),
        tally_all(rt, manager, Vec::new(alloc)),
    ))
}

/// All entries of the two are counted.
fn assert_counted<L: Ledger + Send + Sync, R: Threads + Wait + Abort + Sync>(
    rt: &R,
    alloc: Global,
    manager: &Arc<Counted<L>, Global>,
    asked: &Ask,
) -> Result<(), Fail> {
    let pair = contend(rt, manager, asked)?;
    let sum = sum_up(rt, manager);
    let tallies = tallies(rt, alloc, manager, pair)?;
    assert_eq!(rt;
        (sum.entries, sum.takes, tallies),
        (404, 0, (Some(404), Some(404)))
    );
    Ok(())
}

fn two_agents<L: Ledger + Send + Sync, R: Threads + Wait + Abort + Sync>(
    rt: &R,
    alloc: Global,
    blank: Blank,
) -> Result<(), Fail>
    requires name { blank.name ≡ L.name }
    requires parts { (blank.parts ≡ L.parts) × (2 ^ 53 ≤ blank.parts) }
{
    let asked = ask(alloc, "db", Mode::Exclusive)?;
    let (total, whole) = blank.open::<L>();
    let manager: Arc<Counted<L>, Global> = Manager::new(rt, alloc, (), total, whole)?;
    assert_counted(rt, alloc, &manager, &asked)
}

#[test]
fn two_agents_take_turns_and_are_counted(rt: HostRuntime) -> Result<(), Fail> {
    two_agents::<Brand, _>(&rt, rt.alloc(), Blank::new(1 << 53))
}
