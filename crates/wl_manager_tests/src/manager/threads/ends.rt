//! A take of an agent's lock and the agent's end, on two threads.

ghost use Rattle.std.specs.Prelude.{◌≡◌, ◌≤◌, ◌^◌};

use super::turns::{Counted, CountedAgent};
use std::alloc::Global;
use std::marker::Brand;
use std::process::Abort;
use std::sync::ledger::{Blank, Ledger};
use std::sync::{Arc, Wait};
use std::test::Fail;
use std::thread;
use std::thread::Threads;
use wl_cell::Taking;
use wl_core::PlainCore;
use wl_manager::{Leaving, Ledgered, Manager, Ticket};
use wl_test_support::ask;
use wl_types::{Ask, Kind, Mode, Phase};

type CountedTicket<L> = Ticket<PlainCore, Ledgered<L>>;

type Left<L> = Leaving<Ledgered<L>>;

fn race<L: Ledger + Send + Sync, R: Threads + Wait + Sync>(
    rt: &R,
    ticket: &mut CountedTicket<L>,
    agent: CountedAgent<L>,
) -> (Taking, Left<L>) {
    thread::join(rt, move || ticket.take(), || agent.terminate(rt))
}

/// A new agent, whose lock is taken while it ends: the take wins, or finds the end, and then the lock is released.
fn race_anew<L: Ledger + Send + Sync, R: Threads + Wait + Abort + Sync>(
    rt: &R,
    manager: &Arc<Counted<L>>,
    asked: &Ask,
) -> Result<Left<L>, Fail> {
    let mut agent = Manager::open(manager, rt, Kind::Window)?;
    let mut ticket = agent.request(rt, asked)?;
    let (taking, left) = race(rt, &mut ticket, agent);
    assert!(rt;
        taking == Taking::Taken || taking == Taking::Before(Phase::Released),
        "{taking:?}"
    );
    assert_eq!(rt; ticket.look(), Phase::Released);
    Ok(left)
}

/// All entries of the agents that left are counted.
fn assert_ends<L: Ledger + Send + Sync, R: Threads + Wait + Abort + Sync>(
    rt: &R,
    alloc: Global,
    manager: &Arc<Counted<L>>,
) -> Result<(), Fail> {
    let asked = ask(alloc, "db", Mode::Exclusive)?;
    let mut leavings = Vec::new(alloc);
    for _ in 0..1000 {
        leavings.push(race_anew(rt, manager, &asked)?)?;
    }
    assert_eq!(rt; manager.tally(rt, leavings).ok(), Some(3000));
    Ok(())
}

fn ends<L: Ledger + Send + Sync, R: Threads + Wait + Abort + Sync>(
    rt: &R,
    alloc: Global,
    blank: Blank,
) -> Result<(), Fail>
    requires name { blank.name ≡ L.name }
    requires parts { (blank.parts ≡ L.parts) × (2 ^ 53 ≤ blank.parts) }
{
    let (total, whole) = blank.open::<L>();
    let manager: Arc<Counted<L>, Global> = Manager::new(rt, alloc, (), total, whole)?;
    assert_ends(rt, alloc, &manager)
}

#[test]
fn a_take_and_an_end_race_a_thousand_times(rt: HostRuntime) -> Result<(), Fail> {
    ends::<Brand, _>(&rt, rt.alloc(), Blank::new(1 << 53))
}
