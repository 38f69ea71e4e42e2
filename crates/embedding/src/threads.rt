//! Threads that share a manager: each is an agent of it, and both want the same lock.

use crate::exclusive;
use crate::fault::Fault;
use std::alloc::Global;
use std::sync::atomic::{AtomicU64, Ordering};
use std::sync::{Arc, Wait};
use std::thread;
use std::thread::Threads;
use wl_cell::Taking;
use wl_core::PlainCore;
use wl_manager::{Agent, Manager, Recent};
use wl_types::{Ask, Kind, Refusal};

/// A manager whose core keeps lists, and whose journal keeps its last entries alone, so that its memory doesn't grow.
type SharedManager = Manager<PlainCore, Recent>;

type SharedAgent = Agent<PlainCore, Recent>;

/// Two agents print pages, one at a time. Answers how many were printed: none is lost.
pub fn share_printer<R: Threads + Wait + Sync>(rt: &R, alloc: Global) -> Result<u64, Fault> {
    let ask = exclusive(alloc, "printer")?;
    let manager: Arc<SharedManager> = Manager::new(rt, alloc, (), (), ())?;
    Ok(print_together(rt, &manager, &ask)?)
}

fn print_together<R: Threads + Wait + Sync>(
    rt: &R,
    manager: &Arc<SharedManager>,
    ask: &Ask,
) -> Result<u64, Refusal> {
    let pages = AtomicU64::new(0);
    let print = || print_pages(rt, manager, ask, &pages);
    let (one, two) = thread::join(rt, &print, &print);
    one?;
    two?;
    Ok(pages.load(Ordering::SeqCst))
}

/// What each thread does: it opens an agent, which takes its turns, and is ended also where one of them is refused.
fn print_pages<R: Wait>(
    rt: &R,
    manager: &Arc<SharedManager>,
    ask: &Ask,
    pages: &AtomicU64,
) -> Result<(), Refusal> {
    let mut agent = Manager::open(manager, rt, Kind::Worker)?;
    let ended = take_turns(rt, &mut agent, ask, pages);
    agent.terminate(rt);
    ended
}

fn take_turns<R: Wait>(
    rt: &R,
    agent: &mut SharedAgent,
    ask: &Ask,
    pages: &AtomicU64,
) -> Result<(), Refusal> {
    for _ in 0..50 {
        take_turn(rt, agent, ask, pages)?;
    }
    Ok(())
}

/// One turn: the agent requests the lock, waits for the grant, takes the lock, prints a page, and releases the lock.
fn take_turn<R: Wait>(
    rt: &R,
    agent: &mut SharedAgent,
    ask: &Ask,
    pages: &AtomicU64,
) -> Result<(), Refusal> {
    let mut ticket = agent.request(rt, ask)?;
    ticket.wait(rt);
    // By now an abort or a steal may have ended the lock. Nobody does either here.
    if ticket.take() == Taking::Taken {
        print_page(pages);
    }
    agent.release(rt, &mut ticket);
    Ok(())
}

/// Reads the count of pages, lets the other thread run, and writes it: without the lock pages would be lost.
fn print_page(pages: &AtomicU64) {
    let before = pages.load(Ordering::SeqCst);
    thread::yield_now();
    pages.store(before.wrapping_add(1), Ordering::SeqCst);
}
