//! What the contracts can't show: that calls take the lock and pass on their own arguments, that they succeed with
//! ample memory, and races.

mod aborts;
mod agents;
mod desk;
mod growth;
mod inboxes;
mod listing;
mod plain;
mod refusals;
mod threads;

use crate::rows::assert_rows;
use desk::{Call, Desk};
use plain::PlainManager;
use std::alloc::Global;
use std::process::Abort;
use std::sync::Wait;
use std::test::Fail;
use wl_core::{Command, LockCore, PlainCore};
use wl_journal::{Entry, audit};
use wl_manager::{Count, Manager, Visitor};
use wl_test_support::opening;
use wl_types::Memory;

/// Makes the calls of a new manager.
fn assert_calls<R: Wait + Abort>(
    rt: &R,
    alloc: Global,
    rows: &[(Call, &str)],
) -> Result<(), Memory> {
    let mut desk = Desk::new(alloc, PlainManager::new(rt, alloc)?)?;
    assert_rows(rt, &mut desk, rows)
}

/// How many entries a journal has, and how many of them are takes.
#[derive(Drop)]
struct Sum {
    entries: usize,
    takes: usize,
}

impl Visitor for Sum {
    fn visit(&mut self, entries: &[Entry]) {
        self.entries = entries.len();
        self.takes = takes(entries);
    }
}

fn takes(entries: &[Entry]) -> usize {
    let mut takes: usize = 0;
    for entry in entries {
        if matches!(entry.command, Command::Take(_)) {
            takes = takes.saturating_add(1);
        }
    }
    takes
}

fn sum_up<C: LockCore, T: Count, R: Wait>(rt: &R, manager: &Manager<C, T>) -> Sum {
    let mut sum = Sum {
        entries: 0,
        takes: 0,
    };
    manager.visit(rt, &mut sum);
    sum
}

/// How many entries a journal shows, and whether they are legal from the opening state, or from where it was cut.
#[derive(Drop)]
struct Audit {
    opening: PlainCore,
    entries: usize,
    is_legal: bool,
}

impl Visitor for Audit {
    fn visit(&mut self, entries: &[Entry]) {
        self.entries = entries.len();
        self.is_legal = audit(&self.opening, entries).is_ok();
    }

    fn visit_since(&mut self, base: &PlainCore, entries: &[Entry]) {
        self.entries = entries.len();
        self.is_legal = audit(base, entries).is_ok();
    }
}

fn audit_book<C: LockCore, T: Count, R: Wait>(
    rt: &R,
    alloc: Global,
    manager: &Manager<C, T>,
) -> (bool, usize) {
    let mut audit = Audit {
        opening: opening(alloc, ()),
        entries: 0,
        is_legal: false,
    };
    manager.visit(rt, &mut audit);
    (audit.is_legal, audit.entries)
}
