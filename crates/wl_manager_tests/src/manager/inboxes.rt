//! What an agent learns of its requests, and whom its bell tells.

use super::assert_calls;
use super::desk::Act::{Changed, IsRung, Release, Request, SilenceBell};
use super::desk::Call;
use super::desk::Call::{Agent, Alarm, Open, OpenHeard, Ring};
use super::desk::Manner::{Exclusive, Stealing};
use std::test::Fail;
use wl_types::Kind::Window;

/// A bell rings once for all that changes until the agent collects it.
const TOLD_OF_CHANGES: &[(Call, &str)] = &[
    (OpenHeard(Window), "Ok(1)"),
    (OpenHeard(Window), "Ok(2)"),
    (Ring, "None"),
    (Agent(1, Request("db", Exclusive)), "Ok(1)"),
    (Agent(2, Request("db", Exclusive)), "Ok(2)"),
    (Ring, "Some([1])"),
    (Agent(2, IsRung), "false"),
    (Agent(1, Release(1)), "Some(Released)"),
    (Ring, "Some([2])"),
    (Agent(1, Changed), "Some([1, 1])"),
    (Agent(1, IsRung), "false"),
    (Agent(2, Changed), "Some([2])"),
    (Agent(2, Changed), "Some([])"),
    (Agent(1, Request("db", Stealing)), "Ok(3)"),
    (Ring, "Some([1, 2])"),
    (Agent(2, IsRung), "true"),
    (Agent(1, Changed), "Some([3])"),
    (Agent(2, Changed), "Some([2])"),
    (Ring, "None"),
];

/// An agent that doesn't collect them is told of no more changes than it has places for.
const TOLD_OF_TOO_MANY: &[(Call, &str)] = &[
    (OpenHeard(Window), "Ok(1)"),
    (Agent(1, Request("db", Exclusive)), "Ok(1)"),
    (Agent(1, Release(1)), "Some(Released)"),
    (Agent(1, Request("db", Exclusive)), "Ok(2)"),
    (Agent(1, Release(2)), "Some(Released)"),
    (Agent(1, Request("db", Exclusive)), "Ok(3)"),
    (Agent(1, Release(3)), "Some(Released)"),
    (Agent(1, Changed), "None"),
    (Agent(1, Changed), "Some([])"),
];

/// A silenced bell rings for nothing until the agent collects what changed. An agent that has no bell stays as it is.
const TOLD_IN_SILENCE: &[(Call, &str)] = &[
    (OpenHeard(Window), "Ok(1)"),
    (OpenHeard(Window), "Ok(2)"),
    (Agent(1, SilenceBell), "true"),
    (Agent(1, Request("db", Exclusive)), "Ok(1)"),
    (Ring, "None"),
    (Agent(1, Changed), "Some([1])"),
    (Agent(1, IsRung), "false"),
    (Agent(2, Request("db", Stealing)), "Ok(2)"),
    (Ring, "Some([1, 2])"),
    (Agent(1, Changed), "Some([1])"),
    (Open(Window), "Ok(3)"),
    (Agent(3, SilenceBell), "false"),
];

/// A ring raises its alarm with the first number that comes since it was taken, and whoever takes the alarm first finds
/// it raised.
const AN_ALARM_IS_RAISED_ONCE: &[(Call, &str)] = &[
    (OpenHeard(Window), "Ok(1)"),
    (OpenHeard(Window), "Ok(2)"),
    (Alarm, "false"),
    (Agent(1, Request("db", Exclusive)), "Ok(1)"),
    (Alarm, "true"),
    (Alarm, "false"),
    (Agent(2, Request("db", Stealing)), "Ok(2)"),
    (Alarm, "false"),
    (Ring, "Some([1, 2])"),
    (Agent(2, Changed), "Some([2])"),
    (Agent(2, Release(2)), "Some(Released)"),
    (Alarm, "true"),
    (Ring, "Some([2])"),
];

#[test]
fn an_agent_is_told_which_of_its_requests_changed(rt: HostRuntime) -> Result<(), Fail> {
    assert_calls(&rt, rt.alloc(), TOLD_OF_CHANGES)?;
    assert_calls(&rt, rt.alloc(), TOLD_IN_SILENCE)?;
    assert_calls(&rt, rt.alloc(), AN_ALARM_IS_RAISED_ONCE)?;
    Ok(assert_calls(&rt, rt.alloc(), TOLD_OF_TOO_MANY)?)
}
