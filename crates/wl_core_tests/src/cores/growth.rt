//! Each growth refused in turn.

use std::alloc::Global;
use std::hash::RandomState;
use std::test::Fail;
use wl_core::{Command, LockCore, PlainCore, apply, lacks_memory, run_commands};
use wl_index::{IndexCore, random_seed};
use wl_test_support::{ask_with_signal, fail_refused, opening, reader_behind_writer};
use wl_types::{Kind, Memory, Refusal};

/// A command that is refused memory leaves the core as it was, and is done when it is asked again.
fn try_command<C: LockCore>(core: &mut C, command: &Command) -> Result<(), Fail> {
    let before = core.copy_plain()?;
    if !lacks_memory(&apply(core, command)) {
        return Ok(());
    }
    let is_as_before = core.copy_plain()? == before && core.changes().is_empty();
    fail_refused(is_as_before && !lacks_memory(&apply(core, command)))
}

/// An agent, its signal, a lock, and a request that waits for it.
fn command(alloc: Global, place: usize) -> Result<Command, Memory> {
    match place {
        0 => Ok(Command::Enter(Kind::Window)),
        1 => Ok(Command::NewSignal(1)),
        _ => Ok(Command::Request(1, ask_with_signal(alloc, "db", 1)?)),
    }
}

/// How many locks a snapshot has, if it is refused nothing but memory.
fn locks<C: LockCore>(core: &C) -> Option<usize> {
    match core.snapshot(1) {
        Ok(snapshot) => Some(snapshot.held.as_slice().len()),
        Err(Refusal::Memory) => None,
        Err(_) => Some(usize::MAX),
    }
}

/// A snapshot and a copy that are refused memory are whole when they are asked for again.
fn try_sights<C: LockCore>(core: &C, before: &PlainCore) -> Result<(), Fail> {
    if locks(core) != Some(1) {
        return fail_refused(locks(core) == Some(1));
    }
    match core.copy_plain() {
        Ok(_) => Ok(()),
        Err(Memory) => fail_refused(core.copy_plain()? == *before),
    }
}

/// A copy in a copy's room that is refused memory is whole when it is asked for again.
fn try_copy_in_room<C: LockCore>(core: &C, before: &PlainCore) -> Result<(), Fail> {
    match core.copy_plain_in(before.copy_plain()?) {
        Ok(_) => Ok(()),
        Err(Memory) => fail_refused(core.copy_plain_in(before.copy_plain()?)? == *before),
    }
}

/// A list of commands that is refused memory was done just so far as it says.
fn try_list<C: LockCore>(alloc: Global, seed: C::Seed) -> Result<(), Fail> {
    let commands = reader_behind_writer(alloc)?;
    let mut core: C = opening(alloc, seed);
    let Err(done) = run_commands(alloc, &mut core, &commands) else {
        return Ok(());
    };
    let mut beside: PlainCore = opening(alloc, ());
    for command in commands.iter().take(done as usize) {
        let _ = apply(&mut beside, command);
    }
    fail_refused(core.copy_plain()? == beside)
}

fn try_calls<S: Copy + Drop, C: LockCore<Seed = S>>(alloc: Global, seed: S) -> Result<(), Fail> {
    let mut core: C = opening(alloc, seed);
    for place in 0..4 {
        try_command(&mut core, &command(alloc, place)?)?;
    }
    let before = core.copy_plain()?;
    try_sights(&core, &before)?;
    try_copy_in_room(&core, &before)?;
    try_list::<C>(alloc, seed)
}

#[test]
fn a_refused_growth_changes_nothing(rt: HostRuntime) -> Result<(), Fail> {
    try_calls::<(), PlainCore>(rt.alloc(), ())
}

#[test]
fn a_refused_growth_changes_no_table(rt: HostRuntime) -> Result<(), Fail> {
    try_calls::<RandomState, IndexCore>(rt.alloc(), random_seed(&rt)?)
}
