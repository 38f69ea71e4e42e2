//! Looks, takes and aborts of one cell, and their race.

mod ends;
mod races;

use crate::rows::assert_rows;
use ends::Call::{Agree, Kept, Look, LookOn, New, Settle, Take, TryAbort, Watch};
use ends::{Call, Ends};
use std::alloc::Global;
use std::process::Abort;
use std::sync::Wait;
use std::test::Fail;
use wl_types::Memory;
use wl_types::Phase::{Aborted, Granted, Released, Stolen, Unavailable};
use wl_types::Reason::{AbortError, Code, TimeoutError};

/// Makes the calls on a new cell.
fn assert_calls<R: Wait + Abort>(
    rt: &R,
    alloc: Global,
    rows: &[(Call, &str)],
) -> Result<(), Memory> {
    let mut ends = Ends::new(alloc)?;
    assert_rows(rt, &mut ends, rows)
}

const TAKEN_ONCE: &[(Call, &str)] = &[
    (Settle(Granted), "true"),
    (Look, "Granted"),
    (Take, "Taken"),
    (Take, "Before(Taken)"),
    (TryAbort(AbortError), "Some(false)"),
    (Kept, "Taken"),
    (Watch, "true"),
    (Look, "Taken"),
    (LookOn, "Taken"),
    (Agree, "(Taken, Taken)"),
    (Settle(Released), "true"),
    (LookOn, "Released"),
    (Take, "Before(Released)"),
];

#[test]
fn a_lock_is_taken_once_and_then_not_aborted(rt: HostRuntime) -> Result<(), Fail> {
    Ok(assert_calls(&rt, rt.alloc(), TAKEN_ONCE)?)
}

/// The end of a request that waited is seen by both ends at once.
const ENDED_WHILE_IT_WAITED: &[(Call, &str)] = &[
    (New, "true"),
    (Look, "Pending"),
    (LookOn, "Pending"),
    (Take, "Pending"),
    (Settle(Aborted(AbortError)), "true"),
    (Look, "Aborted(AbortError)"),
    (LookOn, "Aborted(AbortError)"),
    (Agree, "(Aborted(AbortError), Aborted(AbortError))"),
    (New, "true"),
    (Look, "Pending"),
    (LookOn, "Pending"),
    (Take, "Pending"),
    (Settle(Aborted(TimeoutError)), "true"),
    (Look, "Aborted(TimeoutError)"),
    (LookOn, "Aborted(TimeoutError)"),
    (Agree, "(Aborted(TimeoutError), Aborted(TimeoutError))"),
    (New, "true"),
    (Look, "Pending"),
    (LookOn, "Pending"),
    (Take, "Pending"),
    (Settle(Unavailable), "true"),
    (Look, "Unavailable"),
    (LookOn, "Unavailable"),
    (Agree, "(Unavailable, Unavailable)"),
];

#[test]
fn a_look_is_of_now(rt: HostRuntime) -> Result<(), Fail> {
    Ok(assert_calls(&rt, rt.alloc(), ENDED_WHILE_IT_WAITED)?)
}

/// A code is read back as itself, the least and the greatest too. A take that comes after the abort takes nothing.
const ABORTED_WITH_A_CODE: &[(Call, &str)] = &[
    (New, "true"),
    (Settle(Aborted(Code(0))), "true"),
    (Look, "Aborted(Code(0))"),
    (Agree, "(Aborted(Code(0)), Aborted(Code(0)))"),
    (Take, "Before(Aborted(Code(0)))"),
    (New, "true"),
    (Settle(Aborted(Code(65535))), "true"),
    (Kept, "Aborted(Code(65535))"),
    (LookOn, "Aborted(Code(65535))"),
    (Take, "Before(Aborted(Code(65535)))"),
    (New, "true"),
    (Settle(Granted), "true"),
    (TryAbort(Code(65535)), "Some(true)"),
    (TryAbort(Code(0)), "None"),
    (Settle(Aborted(Code(0))), "false"),
    (Take, "Before(Aborted(Code(65535)))"),
    (Look, "Aborted(Code(65535))"),
    (New, "true"),
    (Settle(Granted), "true"),
    (TryAbort(Code(0)), "Some(true)"),
    (Take, "Before(Aborted(Code(0)))"),
    (LookOn, "Aborted(Code(0))"),
    (New, "true"),
    (Settle(Granted), "true"),
    (Take, "Taken"),
    (TryAbort(Code(7)), "Some(false)"),
    (Look, "Taken"),
];

#[test]
fn a_cell_carries_the_code_of_an_abort(rt: HostRuntime) -> Result<(), Fail> {
    Ok(assert_calls(&rt, rt.alloc(), ABORTED_WITH_A_CODE)?)
}

/// The same of the end of a lock that was granted and seen so.
const ENDED_AFTER_THE_GRANT: &[(Call, &str)] = &[
    (New, "true"),
    (Settle(Granted), "true"),
    (Look, "Granted"),
    (LookOn, "Granted"),
    (Settle(Released), "true"),
    (Look, "Released"),
    (LookOn, "Released"),
    (Agree, "(Released, Released)"),
    (Take, "Before(Released)"),
    (New, "true"),
    (Settle(Granted), "true"),
    (Look, "Granted"),
    (LookOn, "Granted"),
    (Settle(Stolen), "true"),
    (Look, "Stolen"),
    (LookOn, "Stolen"),
    (Agree, "(Stolen, Stolen)"),
    (Take, "Before(Stolen)"),
];

#[test]
fn a_look_repeats_no_older_phase(rt: HostRuntime) -> Result<(), Fail> {
    Ok(assert_calls(&rt, rt.alloc(), ENDED_AFTER_THE_GRANT)?)
}
