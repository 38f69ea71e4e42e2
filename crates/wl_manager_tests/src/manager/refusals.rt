//! Refusals come before want of memory: tests/refuse_growths runs this with all growths refused from some point on.

use super::plain::{PlainAgent, PlainManager};
use std::alloc::Global;
use std::sync::Wait;
use std::test::Fail;
use wl_test_support::ask;
use wl_types::{Ask, Kind, Mode, Reason, Refusal};

/// A manager with as many agents as may be: a window, a worker and others.
#[derive(Drop)]
struct Full {
    manager: PlainManager,
    window: PlainAgent,
    worker: PlainAgent,
    others: Vec<PlainAgent>,
}

/// As many workers as may be there beside two agents.
fn open_others<R: Wait>(
    rt: &R,
    alloc: Global,
    manager: &PlainManager,
) -> Result<Vec<PlainAgent>, Fail> {
    let mut others = Vec::new(alloc);
    for _ in 2..4096 {
        others.push(manager.open(rt, Kind::Worker)?)?;
    }
    Ok(others)
}

/// The window becomes inactive, and the worker makes all its signals.
fn spend<R: Wait>(rt: &R, full: &mut Full) -> Result<(), Refusal> {
    full.window.set_active(rt, false)?;
    for _ in 0..1024 {
        full.worker.new_signal(rt)?;
    }
    Ok(())
}

fn open_all<R: Wait>(rt: &R, alloc: Global) -> Result<Full, Fail> {
    let manager = PlainManager::new(rt, alloc)?;
    let window = manager.open(rt, Kind::Window)?;
    let worker = manager.open(rt, Kind::Worker)?;
    let others = open_others(rt, alloc, &manager)?;
    Ok(Full {
        manager,
        window,
        worker,
        others,
    })
}

/// Why each call is refused, in turn.
type Refusals = [Option<Refusal>; 7];

const DUE: Refusals = [
    Some(Refusal::TooManyAgents),
    Some(Refusal::InvalidState),
    Some(Refusal::InvalidState),
    Some(Refusal::ReservedName),
    Some(Refusal::NotAWindow),
    Some(Refusal::TooManySignals),
    Some(Refusal::NoSuchSignal),
];

fn refusals<R: Wait>(rt: &R, full: &mut Full, asked: &Ask, reserved: &Ask) -> Refusals {
    let Full {
        manager,
        window,
        worker,
        ..
    } = full;
    [
        manager.open(rt, Kind::Window).err(),
        window.request(rt, asked).err(),
        window.query(rt).err(),
        worker.request(rt, reserved).err(),
        worker.set_active(rt, true).err(),
        worker.new_signal(rt).err(),
        worker.abort(rt, 1025, Reason::AbortError).err(),
    ]
}

#[test]
fn refusals_come_before_memory(rt: HostRuntime) -> Result<(), Fail> {
    let mut full = open_all(&rt, rt.alloc())?;
    spend(&rt, &mut full)?;
    let asked = ask(rt.alloc(), "db", Mode::Exclusive)?;
    let reserved = ask(rt.alloc(), "-db", Mode::Exclusive)?;
    assert!(rt; refusals(&rt, &mut full, &asked, &reserved) == DUE);
    Ok(())
}
