//! How long a manager stays.

use std::alloc::Global;
use wl_service::{Keeping, Service};
use wl_test_support::NoRandom;

const EACH_MANAGER_STAYS: &str = "\
open window https://a.test/ -> Ok(Some(1))
close 1 -> true
managers -> 1
open window https://a.test/ -> Ok(Some(2))
";

const A_MANAGER_GOES_WITH_ITS_LAST_CLIENT: &str = "\
keep 1 -> Ok(())
open window https://a.test/ -> Ok(Some(1))
open window http://a.test/ -> Err(TooManyManagers)
open worker https://a.test/ -> Ok(Some(2))
open window data:text/plain,x -> Ok(None)
close 3 -> false
close 1 -> true
managers -> 1
close 1 -> true
managers -> 0
visit https://a.test/ -> (Ok(false), None)
open window http://a.test/ -> Ok(Some(1))
close 1 -> true
open window https://a.test/ -> Ok(Some(1))
managers -> 1
";

/// And with its last ticket, which tells what became of the request.
const A_TICKET_HOLDS_ITS_MANAGER: &str = "\
keep 1 -> Ok(())
open window https://a.test/ -> Ok(Some(1))
request 1 db -> Ok(1)
close 1 -> true
managers -> 1
look 1 -> Released
open window https://a.test/ -> Ok(Some(2))
";

const THERE_IS_NO_SERVICE_WITHOUT_RANDOM_WORDS: &str = "\
without_random_words -> (true, true)
";

pub const LISTS: &[&str] = &[
    EACH_MANAGER_STAYS,
    A_MANAGER_GOES_WITH_ITS_LAST_CLIENT,
    A_TICKET_HOLDS_ITS_MANAGER,
    THERE_IS_NO_SERVICE_WITHOUT_RANDOM_WORDS,
];

/// Whether there is no service that keeps each manager, and none that keeps those that are used.
pub fn lack_random_words(alloc: Global) -> (bool, bool) {
    let without = NoRandom { alloc };
    let used = Keeping::Used { most: 1 };
    (
        Service::new(&without, alloc).is_err(),
        Service::with_keeping(&without, alloc, used).is_err(),
    )
}
