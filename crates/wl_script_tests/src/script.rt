//! What runs and audits write, for any pieces of input, and what each fault leaves.

mod audits;
mod ends;
mod fakes;
mod faults;
mod growth;
mod limits;
mod pieces;
pub mod runs;

use crate::lists::{Rows, assert_lists};
use audits::AUDITS;
use faults::{NO_RANDOM, READS, REFUSALS, TEXTS, WRITES};
use limits::{LONG_LINES, OWN_LIMIT, TOO_LONG_EARLY, TURNS};
use pieces::{BYTES, EDGES, PIECES, STREAMS};
use std::test::Fail;

#[test]
fn runs_and_audits_write_what_they_come_to(rt: HostRuntime) -> Result<(), Fail> {
    assert_lists(
        &rt,
        &rt,
        Rows::Runs,
        &[
            PIECES,
            BYTES,
            STREAMS,
            EDGES,
            LONG_LINES,
            TOO_LONG_EARLY,
            OWN_LIMIT,
            TURNS,
            AUDITS,
        ],
    )?;
    Ok(())
}

#[test]
fn each_fault_leaves_what_was_written(rt: HostRuntime) -> Result<(), Fail> {
    assert_lists(
        &rt,
        &rt,
        Rows::Runs,
        &[READS, WRITES, REFUSALS, NO_RANDOM, TEXTS],
    )?;
    Ok(())
}
