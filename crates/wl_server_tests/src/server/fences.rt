//! Fences of peers that steal the same lock at once: the call `steal_at_once` of lists, which answers how each of them
//! did, whether the later of two locks has the greater token, and whether enough locks were stolen.

use super::OPEN;
use crate::lists::show;
use std::alloc::Global;
use std::sync::{Mutex, Wait};
use std::test::Fail;
use std::thread;
use std::thread::Threads;
use wl_server::{Fence, FenceCounter, NoAnswer, Peer, Scratch};
use wl_service::Service;

const STEAL: &[u8] = b"{\"id\":4,\"name\":\"db\",\"op\":\"request\",\"options\":{\"steal\":true}}";

/// How often each of three threads steals the lock.
const THEFTS: usize = 4000;

/// Steals the lock again and again, and adds the fences.
fn steal_often<R: Wait>(
    rt: &R,
    service: &Service,
    peer: &mut Peer,
    scratch: &mut Scratch,
    fences: &mut Vec<Fence>,
) -> Result<(), NoAnswer> {
    peer.reply(rt, service, OPEN, scratch)?;
    for _ in 0..THEFTS {
        peer.reply(rt, service, STEAL, scratch)?;
        add(fences, peer.fences())?;
    }
    Ok(())
}

fn add(fences: &mut Vec<Fence>, more: &[Fence]) -> Result<(), NoAnswer> {
    match fences.extend_from_slice(more) {
        Ok(()) => Ok(()),
        Err(_) => Err(NoAnswer::Memory),
    }
}

/// A peer steals the lock, and adds its fences to those of the others when it has ended.
fn steal<R: Wait>(
    rt: &R,
    alloc: Global,
    service: &Service,
    counter: &FenceCounter,
    all: &Mutex<Vec<Fence>>,
) -> Result<(), NoAnswer> {
    let mut fences = Vec::new(alloc);
    let mut scratch = Scratch::new(alloc);
    let mut peer = Peer::with_fences(alloc, counter.share()?);
    let stolen = steal_often(rt, service, &mut peer, &mut scratch, &mut fences);
    peer.end(rt);
    if stolen.is_ok() {
        return add(&mut all.lock(rt), &fences);
    }
    stolen
}

/// How three peers did that steal the lock from one another.
type Stolen = (
    Result<(), NoAnswer>,
    (Result<(), NoAnswer>, Result<(), NoAnswer>),
);

fn steal_beside<R: Threads + Wait + Sync>(
    rt: &R,
    alloc: Global,
    service: &Service,
    counter: &FenceCounter,
    all: &Mutex<Vec<Fence>>,
) -> Stolen {
    let one = || steal(rt, alloc, service, counter, all);
    let two = || thread::join(rt, &one, &one);
    thread::join(rt, &one, two)
}

/// Whether each token is greater than the one before, and whether not all locks were stolen before they were taken.
fn are_tokens_of_thefts(fences: &[Fence]) -> (bool, bool) {
    let mut before = 0;
    for fence in fences {
        if fence.token <= before {
            return (false, false);
        }
        before = fence.token;
    }
    (true, fences.len() > THEFTS / 4)
}

pub fn steal_at_once<R: Threads + Wait + Sync>(
    rt: &R,
    alloc: Global,
    service: &Service,
    came: &mut String,
) -> Result<(), Fail> {
    let counter = FenceCounter::new(alloc)?;
    let all = Mutex::new(Vec::new(alloc));
    let stolen = steal_beside(rt, alloc, service, &counter, &all);
    let mut fences = all.into_inner();
    // The order of the grants: each was granted as it was asked for.
    fences.sort_by_key(|fence| fence.request)?;
    show(came, Some((stolen, are_tokens_of_thefts(&fences))))
}

const TOKENS_GROW_FROM_THEFT_TO_THEFT: &str = "\
steal_at_once -> ((Ok(()), (Ok(()), Ok(()))), (true, true))
";

pub const LISTS: &[&str] = &[TOKENS_GROW_FROM_THEFT_TO_THEFT];
