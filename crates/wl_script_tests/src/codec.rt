//! Messages and lines that are read, and replies that are written.

pub mod bytes;
mod faults;
mod growth;
pub mod messages;
mod reading;
pub mod scratch;
pub mod writing;

use crate::lists::{Rows, assert_lists};
use bytes::{NESTED, NO_JSON, SPACED};
use faults::{FAULTS, IDS, LINES, assert_rules};
use reading::MESSAGES;
use scratch::SCRATCH;
use std::test::Fail;
use writing::{ANSWERS, ERRORS, ESCAPED, NOTICES, SEEN};

/// What messages say, and of several faults the first.
#[test]
fn messages_and_lines_are_read(rt: HostRuntime) -> Result<(), Fail> {
    assert_lists(&rt, &rt, Rows::Messages, &[MESSAGES, FAULTS, IDS])?;
    assert_lists(&rt, &rt, Rows::Lines, &[LINES])?;
    assert_lists(&rt, &rt, Rows::Bytes, &[NO_JSON, NESTED, SPACED])?;
    assert_lists(&rt, &rt, Rows::Scratch, &[SCRATCH])?;
    Ok(())
}

#[test]
fn each_fault_has_a_name_and_a_rule(rt: HostRuntime) {
    assert_rules(&rt);
}

#[test]
fn replies_are_written(rt: HostRuntime) -> Result<(), Fail> {
    assert_lists(
        &rt,
        &rt,
        Rows::Replies,
        &[ANSWERS, ERRORS, NOTICES, SEEN, ESCAPED],
    )?;
    Ok(())
}
