//! An abort of a signal that finds some of its locks taken.

use super::assert_calls;
use super::desk::Act::{Abort, Release, Request, Signal};
use super::desk::Call;
use super::desk::Call::{Agent, Entries, Entry, Open, Ticket};
use super::desk::Manner::Signalled;
use super::desk::Use::{Look, Take};
use std::test::Fail;
use wl_types::Kind::Window;
use wl_types::Reason::{Code, TimeoutError};

/// The second is granted once the first is released, and so after the third. The third is taken before the second. The
/// fourth alone ends.
const TAKEN_OUT_OF_ORDER: &[(Call, &str)] = &[
    (Open(Window), "Ok(1)"),
    (Agent(1, Signal), "Ok(1)"),
    (Agent(1, Request("a", Signalled(1))), "Ok(1)"),
    (Agent(1, Request("a", Signalled(1))), "Ok(2)"),
    (Agent(1, Request("b", Signalled(1))), "Ok(3)"),
    (Agent(1, Request("c", Signalled(1))), "Ok(4)"),
    (Agent(1, Release(1)), "Some(Released)"),
    (Ticket(3, Take), "Taken"),
    (Ticket(2, Take), "Taken"),
    (Agent(1, Abort(1, TimeoutError)), "Ok(Done)"),
    (Ticket(2, Look), "Taken"),
    (Ticket(3, Look), "Taken"),
    (Ticket(4, Look), "Aborted(TimeoutError)"),
    (Entries, "10"),
    (Entry(8), "Take(2), Took(Taken)"),
    (Entry(9), "Take(3), Took(Taken)"),
    (Entry(10), "Abort(1, 1, TimeoutError), Aborted(Done)"),
];

#[test]
fn takes_are_entered_in_the_order_of_their_numbers(rt: HostRuntime) -> Result<(), Fail> {
    Ok(assert_calls(&rt, rt.alloc(), TAKEN_OUT_OF_ORDER)?)
}

/// The first code stays: a second is told of it, and leaves no entry. The third request is refused for it.
const ABORTED_WITH_A_CODE: &[(Call, &str)] = &[
    (Open(Window), "Ok(1)"),
    (Agent(1, Signal), "Ok(1)"),
    (Agent(1, Request("a", Signalled(1))), "Ok(1)"),
    (Agent(1, Request("a", Signalled(1))), "Ok(2)"),
    (Agent(1, Abort(1, Code(65535))), "Ok(Done)"),
    (Agent(1, Abort(1, Code(0))), "Ok(AlreadyAborted)"),
    (Ticket(1, Look), "Aborted(Code(65535))"),
    (Ticket(1, Take), "Before(Aborted(Code(65535)))"),
    (Ticket(2, Look), "Aborted(Code(65535))"),
    (
        Agent(1, Request("a", Signalled(1))),
        "Err(SignalAborted(Code(65535)))",
    ),
    (Entries, "5"),
    (Entry(5), "Abort(1, 1, Code(65535)), Aborted(Done)"),
];

#[test]
fn the_first_code_of_an_abort_stays(rt: HostRuntime) -> Result<(), Fail> {
    Ok(assert_calls(&rt, rt.alloc(), ABORTED_WITH_A_CODE)?)
}
