//! Two managers that go on at once.

use crate::manager::plain::PlainManager;
use std::sync::Wait;
use std::sync::atomic::{AtomicBool, Ordering};
use std::test::Fail;
use std::thread;
use std::thread::Threads;
use wl_journal::Entry;
use wl_manager::Visitor;
use wl_test_support::ask;
use wl_types::{Ask, Kind, Mode, Phase, Refusal};

/// Waits under its manager's lock until a request of another manager was answered.
#[derive(Drop)]
struct Waiting<'a> {
    entered: &'a AtomicBool,
    answered: &'a AtomicBool,
    in_time: bool,
}

impl<'a> Visitor for Waiting<'a> {
    fn visit(&mut self, _entries: &[Entry]) {
        self.entered.store(true, Ordering::SeqCst);
        self.in_time = comes(self.answered);
    }
}

/// Whether the flag comes up in time. The other thread runs between two looks, so that this is many seconds.
fn comes(flag: &AtomicBool) -> bool {
    for _ in 0..100_000_000 {
        if flag.load(Ordering::SeqCst) {
            return true;
        }
        thread::yield_now();
    }
    false
}

fn visit_long<R: Wait>(
    rt: &R,
    manager: &PlainManager,
    entered: &AtomicBool,
    answered: &AtomicBool,
) -> bool {
    let mut waiting = Waiting {
        entered,
        answered,
        in_time: false,
    };
    manager.visit(rt, &mut waiting);
    waiting.in_time
}

/// Once the visitor has the one lock, an agent of the other manager opens and asks.
fn ask_beside<R: Wait>(
    rt: &R,
    manager: &PlainManager,
    asked: &Ask,
    entered: &AtomicBool,
    answered: &AtomicBool,
) -> Result<(bool, Phase), Refusal> {
    let is_beside = comes(entered);
    let mut agent = manager.open(rt, Kind::Window)?;
    let mut ticket = agent.request(rt, asked)?;
    answered.store(true, Ordering::SeqCst);
    Ok((is_beside, ticket.look()))
}

fn visit_and_ask<R: Threads + Wait + Sync>(
    rt: &R,
    one: &PlainManager,
    two: &PlainManager,
    asked: &Ask,
) -> (bool, Result<(bool, Phase), Refusal>) {
    let entered = AtomicBool::new(false);
    let answered = AtomicBool::new(false);
    thread::join(
        rt,
        || visit_long(rt, one, &entered, &answered),
        || ask_beside(rt, two, asked, &entered, &answered),
    )
}

#[test]
fn managers_go_on_at_once(rt: HostRuntime) -> Result<(), Fail> {
    let one = PlainManager::new(&rt, rt.alloc())?;
    let two = PlainManager::new(&rt, rt.alloc())?;
    let asked = ask(rt.alloc(), "db", Mode::Exclusive)?;
    assert_eq!(rt;
        visit_and_ask(&rt, &one, &two, &asked),
        (true, Ok((true, Phase::Granted)))
    );
    Ok(())
}
