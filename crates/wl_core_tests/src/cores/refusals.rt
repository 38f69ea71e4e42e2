//! Refusals come before want of memory: tests/refuse_growths runs this with all growths refused from some point on.

use std::alloc::Global;
use std::hash::RandomState;
use std::test::Fail;
use wl_core::{LockCore, PlainCore};
use wl_index::{IndexCore, random_seed};
use wl_journal::Book;
use wl_test_support::{ask, opening};
use wl_types::{Ask, Kind, Mode, Numbers, Refusal};

/// A core with no number left for an agent.
fn spend_numbers<C: LockCore>(alloc: Global, seed: C::Seed) -> C {
    let next = Numbers {
        agent: 9_007_199_254_740_992,
        request: 1,
        signal: 1,
    };
    C::make(alloc, seed, next)
}

/// A core with an inactive window and a worker.
fn with_two<C: LockCore>(alloc: Global, seed: C::Seed) -> Result<C, Fail> {
    let mut core: C = opening(alloc, seed);
    core.open(Kind::Window)?;
    core.open(Kind::Worker)?;
    core.set_active(1, false)?;
    Ok(core)
}

/// Why each call is refused, in turn.
type Refusals = [Option<Refusal>; 7];

const DUE: Refusals = [
    Some(Refusal::NumbersSpent),
    Some(Refusal::NoSuchAgent),
    Some(Refusal::NotAWindow),
    Some(Refusal::NoSuchAgent),
    Some(Refusal::InvalidState),
    Some(Refusal::ReservedName),
    Some(Refusal::InvalidState),
];

fn refusals<C: LockCore>(spent: &mut C, core: &mut C, asked: &Ask, reserved: &Ask) -> Refusals {
    [
        spent.open(Kind::Window).err(),
        core.new_signal(3).err(),
        core.set_active(2, true).err(),
        core.request(3, asked).err(),
        core.request(1, asked).err(),
        core.request(2, reserved).err(),
        core.snapshot(1).err(),
    ]
}

fn are_due<S: Copy + Drop, C: LockCore<Seed = S>>(
    alloc: Global,
    seed: S,
    asked: &Ask,
    reserved: &Ask,
) -> Result<bool, Fail> {
    let mut core: C = with_two(alloc, seed)?;
    let mut spent: C = spend_numbers(alloc, seed);
    Ok(refusals(&mut spent, &mut core, asked, reserved) == DUE)
}

#[test]
fn refusals_come_before_memory(rt: HostRuntime) -> Result<(), Fail> {
    let asked = ask(rt.alloc(), "db", Mode::Exclusive)?;
    let reserved = ask(rt.alloc(), "-db", Mode::Exclusive)?;
    let seed = random_seed(&rt)?;
    assert!(rt; are_due::<(), PlainCore>(rt.alloc(), (), &asked, &reserved)?);
    assert!(rt; are_due::<RandomState, IndexCore>(rt.alloc(), seed, &asked, &reserved)?);
    assert!(rt; are_due::<RandomState, Book<IndexCore>>(rt.alloc(), seed, &asked, &reserved)?);
    Ok(())
}
