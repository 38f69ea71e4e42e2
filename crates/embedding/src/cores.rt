//! A core, which knows no threads: each call is a step of the lock machine, and `changes` tells which requests it ended
//! and which it granted.

use crate::exclusive;
use crate::fault::Fault;
use std::io;
use std::random::RandomSource;
use wl_core::LockCore;
use wl_index::{IndexCore, random_seed};
use wl_types::{Ask, Change, Kind, Memory, Numbers, Snapshot};

/// Two agents request one lock, which goes from the first to the second. Prints what each call changed.
pub fn hand_over<R: RandomSource + Print + AllocGlobal>(rt: &R) -> Result<(), Fault> {
    let ask = exclusive(rt.alloc(), "printer")?;
    let mut core = new_core(rt)?;
    drive(rt, &mut core, &ask)
}

/// A core that finds requests by number and name, hashed by random words. Its first agent and request get number 1.
fn new_core<R: RandomSource + AllocGlobal>(rt: &R) -> Result<IndexCore, Memory> {
    let next = Numbers {
        agent: 1,
        request: 1,
        signal: 1,
    };
    Ok(IndexCore::make(rt.alloc(), random_seed(rt)?, next))
}

/// The calls, which are the same for a core of any kind.
fn drive<C: LockCore, R: Print>(rt: &R, core: &mut C, ask: &Ask) -> Result<(), Fault> {
    let first = core.open(Kind::Window)?;
    let second = core.open(Kind::Worker)?;
    let request = request_lock(rt, core, first, ask)?;
    request_lock(rt, core, second, ask)?;
    query(rt, core, second)?;
    use_lock(rt, core, first, request)?;
    query(rt, core, second)
}

/// Requests the lock. Where another agent holds it the request waits in the lock's queue, and nothing changes.
fn request_lock<C: LockCore, R: Print>(
    rt: &R,
    core: &mut C,
    agent: u64,
    ask: &Ask,
) -> Result<u64, Fault> {
    let request = core.request(agent, ask)?;
    println!(rt; "agent {agent} requests the lock printer by request {request}")?;
    print_changes(rt, core.changes())?;
    Ok(request)
}

/// Takes the granted lock, and releases it: then the next in the queue has it.
fn use_lock<C: LockCore, R: Print>(
    rt: &R,
    core: &mut C,
    agent: u64,
    request: u64,
) -> io::Result<()> {
    let took = core.take(request);
    println!(rt; "agent {agent} takes it: {took:?}")?;
    let released = core.release(agent, request);
    println!(rt; "agent {agent} releases it: {released:?}")?;
    print_changes(rt, core.changes())
}

fn print_changes<R: Print>(rt: &R, changes: &[Change]) -> io::Result<()> {
    for change in changes {
        println!(rt; "    request {} is {:?}", change.id, change.phase)?;
    }
    Ok(())
}

/// Prints what this agent sees by a query.
fn query<C: LockCore, R: Print>(rt: &R, core: &C, agent: u64) -> Result<(), Fault> {
    let seen = core.snapshot(agent)?;
    print_snapshot(rt, &seen)?;
    Ok(())
}

fn print_snapshot<R: Print>(rt: &R, seen: &Snapshot) -> io::Result<()> {
    println!(rt; "query")?;
    for lock in seen.held.as_slice() {
        println!(rt; "    held by agent {}, {}", lock.client, lock.mode.word())?;
    }
    for request in seen.pending.as_slice() {
        println!(rt;
            "    in the queue: agent {}, {}",
            request.client,
            request.mode.word()
        )?;
    }
    Ok(())
}
