//! Each growth refused in turn.

use std::alloc::Global;
use std::hash::RandomState;
use std::test::Fail;
use wl_core::{Command, LockCore, PlainCore, apply, lacks_memory};
use wl_index::{IndexCore, random_seed};
use wl_journal::{AuditFault, Book, audit, replay};
use wl_test_support::{ask, fail_refused, opening};
use wl_types::{Kind, Memory, Mode, Refusal};

/// A command that is refused memory leaves the book as it was, and is done and recorded when it is asked again.
fn try_command<C: LockCore>(book: &mut Book<C>, command: &Command) -> Result<(), Fail> {
    let before = book.copy_plain()?;
    let entries = book.len();
    if !lacks_memory(&apply(book, command)) {
        return Ok(());
    }
    let has_no_more = book.len() == entries && book.total() == entries as u64;
    let is_as_before = has_no_more && book.changes().is_empty() && is_opening(book.base());
    let is_same_state = book.copy_plain()? == before;
    let is_done_now = !lacks_memory(&apply(book, command)) && book.len() > entries;
    fail_refused(is_as_before && is_same_state && is_done_now)
}

fn is_opening(core: &PlainCore) -> bool {
    core.agents().is_empty()
}

fn command(alloc: Global, place: usize) -> Result<Command, Memory> {
    match place {
        0 => Ok(Command::Enter(Kind::Window)),
        1 => Ok(Command::SetActive(1, true)),
        2 => Ok(Command::NewSignal(1)),
        _ => Ok(Command::Request(1, ask(alloc, "db", Mode::Exclusive)?)),
    }
}

/// A cut that is refused memory leaves all entries there, and hands them out when it is asked again.
fn try_cut<C: LockCore>(book: &mut Book<C>) -> Result<(), Fail> {
    if book.cut().is_ok() {
        return Ok(());
    }
    let is_as_before = book.len() == 4 && book.total() == 4;
    fail_refused(is_as_before && book.cut()?.len() == 4)
}

/// A checkpoint that is refused memory leaves all entries there, and drops them when it is asked again.
fn try_checkpoint<C: LockCore>(book: &mut Book<C>) -> Result<(), Fail> {
    if book.checkpoint().is_ok() {
        return Ok(());
    }
    let is_as_before = book.len() == 4 && book.total() == 4;
    book.checkpoint()?;
    fail_refused(is_as_before && book.is_empty() && book.total() == 4)
}

/// How many entries an agent sees, if it is refused nothing but memory.
fn count_seen<C: LockCore>(book: &Book<C>) -> Option<u64> {
    match book.sight(1) {
        Ok(sight) => Some(sight.seen),
        Err(Refusal::Memory) => None,
        Err(_) => Some(0),
    }
}

/// A sight and an audit that are refused memory are what they should be when they are asked for again.
fn try_sights<C: LockCore>(book: &Book<C>) -> Result<(), Fail> {
    if count_seen(book) != Some(4) {
        return fail_refused(count_seen(book) == Some(4));
    }
    match audit(book.base(), book.entries()) {
        Err(AuditFault::Memory) => fail_refused(audit(book.base(), book.entries()).is_ok()),
        Ok(()) => Ok(()),
        Err(AuditFault::Illegal(_)) => fail_refused(false),
    }
}

/// A replay that is refused memory says so, and comes to its end when it is asked for again.
fn try_replay<C: LockCore>(alloc: Global, seed: RandomState, book: &Book<C>) -> Result<(), Fail> {
    if replay(opening::<IndexCore>(alloc, seed), book.entries()).is_ok() {
        return Ok(());
    }
    fail_refused(replay(opening::<IndexCore>(alloc, seed), book.entries()).is_ok())
}

fn try_commands<C: LockCore>(alloc: Global, book: &mut Book<C>) -> Result<(), Fail> {
    for place in 0..4 {
        try_command(book, &command(alloc, place)?)?;
    }
    Ok(())
}

fn try_calls<C: LockCore>(
    alloc: Global,
    seed: RandomState,
    book: &mut Book<C>,
) -> Result<(), Fail> {
    try_commands(alloc, book)?;
    try_sights(book)?;
    try_replay(alloc, seed, book)?;
    try_cut(book)
}

#[test]
fn a_refused_growth_is_not_recorded(rt: HostRuntime) -> Result<(), Fail> {
    let seed = random_seed(&rt)?;
    try_calls::<PlainCore>(rt.alloc(), seed, &mut opening(rt.alloc(), ()))
}

/// Behind these commands.
fn try_late_checkpoint<C: LockCore>(alloc: Global, book: &mut Book<C>) -> Result<(), Fail> {
    try_commands(alloc, book)?;
    try_checkpoint(book)
}

#[test]
fn a_refused_checkpoint_drops_nothing(rt: HostRuntime) -> Result<(), Fail> {
    try_late_checkpoint::<PlainCore>(rt.alloc(), &mut opening(rt.alloc(), ()))
}

fn try_second_checkpoint<C: LockCore>(alloc: Global, book: &mut Book<C>) -> Result<(), Fail> {
    book.checkpoint()?;
    try_late_checkpoint(alloc, book)
}

/// In the room of the base before, which a refused checkpoint gives up.
#[test]
fn a_refused_checkpoint_in_older_room_drops_nothing(rt: HostRuntime) -> Result<(), Fail> {
    try_second_checkpoint::<PlainCore>(rt.alloc(), &mut opening(rt.alloc(), ()))
}
