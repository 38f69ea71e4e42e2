//! Which locks of a service are listed.

use std::sync::Wait;
use wl_manager::LockList;
use wl_service::{Client, Service};
use wl_types::{Ask, Memory, Refusal};

const LOCKS_ARE_LISTED_BY_MANAGER: &str = "\
locks -> 0
open window https://b.test/ -> Ok(Some(1))
open window http://a.test:81/ -> Ok(Some(1))
open_in window inbox https://b.test/ -> Ok(Some(1))
open window data:text/plain,x -> Ok(None)
request 1 db -> Ok(1)
request 1 db -> Ok(2)
request 3 db -> Ok(1)
locks -> http://a.test:81 default: | and 0, https://b.test default: 1 | 2 and 0, https://b.test inbox: 1 | and 0, 0
locks https://b.test/x -> https://b.test default: 1 | 2 and 0, https://b.test inbox: 1 | and 0, 0
locks http://a.test:81/ -> http://a.test:81 default: | and 0, 0
locks https://c.test/ -> 0
release 1 1 -> Released
locks https://b.test/ -> https://b.test default: 2 | and 0, https://b.test inbox: 1 | and 0, 0
";

/// A list holds no manager back: it goes with its last client.
const A_LIST_KEEPS_NO_MANAGER: &str = "\
keep 2 -> Ok(())
open window https://a.test/ -> Ok(Some(1))
open window https://b.test/ -> Ok(Some(1))
locks -> https://a.test default: | and 0, https://b.test default: | and 0, 0
managers -> 2
close 1 -> true
managers -> 1
locks -> https://b.test default: | and 0, 0
";

/// One lock and 1,001 requests that wait for it: 1,000 rows are listed, and two are counted.
const A_LONG_LIST_IS_CUT: &str = "\
open window https://a.test/ -> Ok(Some(1))
ask_often 1 db -> Ok(())
cut -> Ok(Some((1, 999, 2, Some(1000))))
";

pub const LISTS: &[&str] = &[
    LOCKS_ARE_LISTED_BY_MANAGER,
    A_LIST_KEEPS_NO_MANAGER,
    A_LONG_LIST_IS_CUT,
];

/// How many locks and requests are listed, how many aren't, and the request that is listed last.
pub type Cut = (usize, usize, u64, Option<u64>);

fn cut_of(locks: &LockList) -> Cut {
    let last = locks.pending.last().map(|row| row.request);
    (locks.held.len(), locks.pending.len(), locks.left_out, last)
}

/// Asks more often than there are rows in a list.
pub fn ask_often<R: Wait>(rt: &R, client: &mut Client, asked: &Ask) -> Result<(), Refusal> {
    for _ in 0..1002 {
        client.request(rt, asked)?;
    }
    Ok(())
}

/// What is listed of the first manager.
pub fn cut<R: Wait>(rt: &R, service: &Service) -> Result<Option<Cut>, Memory> {
    match service.list_locks(rt, None, 0)?.managers.first() {
        Some(one) => Ok(Some(cut_of(&one.locks))),
        None => Ok(None),
    }
}
