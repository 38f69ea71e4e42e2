//! Copies of cores, and the room that they are made in.

use std::alloc::Global;
use std::hash::RandomState;
use std::test::Fail;
use wl_core::{LockCore, PlainCore, clear_list};
use wl_index::{IndexCore, random_seed};
use wl_test_support::{do_list, opening};
use wl_types::Memory;

const TWO_READERS: &str = "\
open window -> Agent(1)
request 1 db shared -> Request(1), 1 Granted
request 1 db shared -> Request(2), 2 Granted
";

/// Whether a copy equals the core, and still does when a take of an unknown request has left other changes to tell, and
/// no longer when a lock was taken.
fn equals_its_copy(core: &mut PlainCore) -> Result<bool, Memory> {
    let copy = core.copy_plain()?;
    let is_equal = copy == *core && copy.changes().is_empty();
    core.take(9);
    let is_still = copy == *core;
    core.take(1);
    Ok(is_equal && is_still && copy != *core)
}

#[test]
fn a_copy_equals_its_origin_whatever_changed_last(rt: HostRuntime) -> Result<(), Fail> {
    let mut core: PlainCore = opening(rt.alloc(), ());
    do_list(rt.alloc(), &mut core, TWO_READERS)?;
    assert!(rt; equals_its_copy(&mut core)?);
    Ok(())
}

/// Another core, with a row on each of its lists.
const A_WRITER: &str = "\
open worker -> Agent(1)
open window -> Agent(2)
signal 2 -> Signal(1)
request 2 log signal=1 -> Request(1), 1 Granted
request 1 log shared -> Request(2)
";

/// Whether a copy in the room of a core that has other rows equals one in room of its own.
fn equals_its_copy_in_room<S: Copy + Drop, C: LockCore<Seed = S>>(
    alloc: Global,
    seed: S,
) -> Result<bool, Memory> {
    let mut core: C = opening(alloc, seed);
    do_list(alloc, &mut core, TWO_READERS)?;
    let mut other: PlainCore = opening(alloc, ());
    do_list(alloc, &mut other, A_WRITER)?;
    let copy = core.copy_plain_in(other)?;
    Ok(copy == core.copy_plain()? && copy.changes().is_empty())
}

#[test]
fn a_copy_has_nothing_of_what_had_its_room(rt: HostRuntime) -> Result<(), Fail> {
    assert!(rt; equals_its_copy_in_room::<(), PlainCore>(rt.alloc(), ())?);
    assert!(rt; equals_its_copy_in_room::<RandomState, IndexCore>(rt.alloc(), random_seed(&rt)?)?);
    Ok(())
}

/// The room that is left of a list of so many numbers with this much, of which so many are needed.
fn room_left(alloc: Global, room: usize, needed: usize) -> Result<usize, Memory> {
    let mut numbers = Vec::with_capacity(alloc, room)?;
    numbers.push(1)?;
    if numbers.capacity() < needed {
        return Ok(0);
    }
    clear_list(alloc, needed, &mut numbers)?;
    Ok(numbers.capacity() + numbers.len())
}

#[test]
fn a_cleared_list_keeps_its_room_unless_it_has_far_more(rt: HostRuntime) -> Result<(), Fail> {
    assert_eq!(rt; room_left(rt.alloc(), 1000, 1)?, 1000);
    assert_eq!(rt; room_left(rt.alloc(), 2000, 1)?, 1);
    assert_eq!(rt; room_left(rt.alloc(), 2000, 250)?, 2000);
    Ok(())
}
