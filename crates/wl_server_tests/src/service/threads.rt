//! Managers that go on at once: the calls `visit_and_ask` and `open_pairs` of lists.

use super::{ELSEWHERE, HERE};
use crate::flags::comes;
use crate::lists::show;
use std::alloc::Global;
use std::sync::Wait;
use std::sync::atomic::{AtomicBool, Ordering};
use std::test::Fail;
use std::thread;
use std::thread::Threads;
use wl_journal::Entry;
use wl_manager::Visitor;
use wl_origin::ManagerKey;
use wl_service::{Client, Service};
use wl_test_support::{ask, key};
use wl_types::{Ask, Kind, Memory, Mode, Phase};

/// Waits under one manager's lock until a request of another one was answered.
#[derive(Drop)]
struct Waiting<'a> {
    entered: &'a AtomicBool,
    answered: &'a AtomicBool,
    in_time: bool,
}

impl<'a> Visitor for Waiting<'a> {
    fn visit(&mut self, _entries: &[Entry]) {
        self.entered.store(true, Ordering::SeqCst);
        self.in_time = comes(self.answered);
    }
}

/// Visits the manager of the key, and tells whether it was waited for in time.
fn visit_long<R: Wait>(
    rt: &R,
    service: &Service,
    key: &ManagerKey,
    entered: &AtomicBool,
    answered: &AtomicBool,
) -> bool {
    let mut waiting = Waiting {
        entered,
        answered,
        in_time: false,
    };
    service.visit(rt, key, &mut waiting) == Ok(true) && waiting.in_time
}

/// Once the visitor has the lock, a client of another origin opens and asks. None if it can't.
fn ask_elsewhere<R: Wait>(
    rt: &R,
    service: &Service,
    asked: &Ask,
    entered: &AtomicBool,
    answered: &AtomicBool,
) -> Option<Phase> {
    if !comes(entered) {
        return None;
    }
    match service.open(rt, ELSEWHERE, Kind::Window) {
        Ok(mut client) => ask_there(rt, &mut client, asked, answered),
        Err(_) => None,
    }
}

fn ask_there<R: Wait>(
    rt: &R,
    client: &mut Client,
    asked: &Ask,
    answered: &AtomicBool,
) -> Option<Phase> {
    match client.request(rt, asked) {
        Ok(mut ticket) => {
            answered.store(true, Ordering::SeqCst);
            Some(ticket.look())
        }
        Err(_) => None,
    }
}

/// Visits the manager here while another client asks elsewhere: whether the visit was waited for in time, and what
/// became of the request.
pub fn visit_and_ask<R: Threads + Wait + Sync>(
    rt: &R,
    alloc: Global,
    service: &Service,
    came: &mut String,
) -> Result<(), Fail> {
    let asked = ask(alloc, "db", Mode::Exclusive)?;
    let key = key(alloc, HERE)?;
    show(came, Some(visit_beside(rt, service, &key, &asked)))
}

fn visit_beside<R: Threads + Wait + Sync>(
    rt: &R,
    service: &Service,
    key: &ManagerKey,
    asked: &Ask,
) -> (bool, Option<Phase>) {
    let entered = AtomicBool::new(false);
    let answered = AtomicBool::new(false);
    thread::join(
        rt,
        || visit_long(rt, service, key, &entered, &answered),
        || ask_elsewhere(rt, service, asked, &entered, &answered),
    )
}

/// The number of a client that opens here.
fn number<R: Wait>(rt: &R, service: &Service, url: &str) -> Option<u64> {
    match service.open(rt, url, Kind::Window) {
        Ok(client) => client.client(),
        Err(_) => None,
    }
}

/// Whether two that open a new origin at once have one manager.
fn share<R: Threads + Wait + Sync>(rt: &R, service: &Service, url: &str) -> bool {
    let numbers = thread::join(rt, || number(rt, service, url), || number(rt, service, url));
    numbers == (Some(1), Some(2)) || numbers == (Some(2), Some(1))
}

/// Opens two at once at each of many origins, and tells the port of the first at which they had no manager in common.
pub fn open_pairs<R: Threads + Wait + Sync>(
    rt: &R,
    alloc: Global,
    service: &Service,
    came: &mut String,
) -> Result<(), Fail> {
    show(came, Some(apart(rt, alloc, service)?))
}

fn apart<R: Threads + Wait + Sync>(
    rt: &R,
    alloc: Global,
    service: &Service,
) -> Result<Option<u64>, Memory> {
    for port in 1000..1100 {
        let url = format!(in alloc; "https://a.test:{port}/")?;
        if !share(rt, service, url.as_str()) {
            return Ok(Some(port));
        }
    }
    Ok(None)
}

const TWO_MANAGERS_GO_ON_AT_ONCE: &str = "\
open window https://a.test/ -> Ok(Some(1))
visit_and_ask -> (true, Some(Granted))
";

const TWO_THAT_OPEN_AN_ORIGIN_AT_ONCE_SHARE_ITS_MANAGER: &str = "\
open_pairs -> None
";

pub const LISTS: &[&str] = &[
    TWO_MANAGERS_GO_ON_AT_ONCE,
    TWO_THAT_OPEN_AN_ORIGIN_AT_ONCE_SHARE_ITS_MANAGER,
];
