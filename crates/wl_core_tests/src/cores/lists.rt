//! Worked lists of calls, for every kind of core. wl_test_support says how they are written.

use std::alloc::Global;
use std::test::Fail;
use wl_core::{LockCore, PlainCore};
use wl_index::{IndexCore, random_seed};
use wl_test_support::{do_list, opening};
use wl_types::Memory;

const AGENTS_COME_AND_GO: &str = "\
may open -> yes
open window -> Agent(1)
open worker -> Agent(2)
may set 1 -> yes
set 1 inactive -> Done
request 1 db shared -> InvalidStateError/inactive
set 1 active -> Done
may set 2 -> NotAWindow/active
terminate 2 -> Done
terminate 2 -> NoSuch/agent
";

const ONE_LOCK: &str = "\
open window -> Agent(1)
may request 1 db -> yes
request 1 db -> Request(1), 1 Granted
take 1 -> Took(Taken)
take 1 -> Took(NotGranted)
release 1 1 -> Released(Released), 1 Released
release 1 1 -> Released(NotHeld)
";

const AN_ABORT: &str = "\
open window -> Agent(1)
may signal 1 -> yes
signal 1 -> Signal(1)
may request 1 db signal=1 -> yes
request 1 db signal=1 -> Request(1), 1 Granted
untaken 1 1 0 -> 1
untaken 1 1 1 -> none
abort 1 1 TimeoutError -> Aborted(Done), 1 Aborted(TimeoutError)
abort 1 1 AbortError -> Aborted(AlreadyAborted)
";

/// The request that waits ends first, and then the lock that wasn't taken. A second code changes nothing.
const AN_ABORT_WITH_A_CODE: &str = "\
open window -> Agent(1)
signal 1 -> Signal(1)
signal 1 -> Signal(2)
request 1 db signal=1 -> Request(1), 1 Granted
request 1 db signal=1 -> Request(2)
request 1 db signal=2 -> Request(3)
abort 1 1 7 -> Aborted(Done), 2 Aborted(Code(7)), 1 Aborted(Code(7)), 3 Granted
abort 1 1 8 -> Aborted(AlreadyAborted)
abort 1 1 AbortError -> Aborted(AlreadyAborted)
request 1 db signal=1 -> AbortCode 7/signal-aborted
may request 1 db signal=1 -> AbortCode 7/signal-aborted
abort 1 2 0 -> Aborted(Done), 3 Aborted(Code(0))
request 1 db signal=2 -> AbortCode 0/signal-aborted
signal 1 -> Signal(3)
request 1 db signal=3 -> Request(4), 4 Granted
take 4 -> Took(Taken)
abort 1 3 65535 -> Aborted(Done)
abort 1 3 0 -> Aborted(AlreadyAborted)
request 1 db signal=3 -> AbortCode 65535/signal-aborted
request 1 db -> Request(5)
terminate 1 -> Done, 5 Aborted(AbortError), 4 Released
";

/// The second is granted once the first is released, and so after the third; the fourth is granted last.
const GRANTED_OUT_OF_ORDER: &str = "\
open worker -> Agent(1)
signal 1 -> Signal(1)
request 1 a signal=1 -> Request(1), 1 Granted
request 1 a signal=1 -> Request(2)
request 1 b signal=1 -> Request(3), 3 Granted
release 1 1 -> Released(Released), 1 Released, 2 Granted
untaken 1 1 0 -> 3
untaken 1 1 1 -> 2
untaken 1 1 2 -> none
request 1 c signal=1 -> Request(4), 4 Granted
above 1 1 0 -> 2
above 1 1 2 -> 3
take 3 -> Took(Taken)
untaken 1 1 0 -> 2
above 1 1 2 -> 4
above 1 1 4 -> none
above 1 2 0 -> none
";

const HELD_AND_WAITED_FOR: &str = "\
open window -> Agent(1)
open worker -> Agent(2)
request 1 db -> Request(1), 1 Granted
request 2 db shared -> Request(2)
query 2 -> held db/exclusive/1, waiting db/shared/2
terminate 2 -> Done, 2 Aborted(AbortError)
terminate 1 -> Done, 1 Released
";

/// The first of three names goes out of use: the last doesn't take its place. When it comes into use again, it is last.
const NAMES_IN_ORDER_OF_USE: &str = "\
open window -> Agent(1)
request 1 a -> Request(1), 1 Granted
request 1 b -> Request(2), 2 Granted
request 1 c -> Request(3), 3 Granted
request 1 c shared -> Request(4)
request 1 b shared -> Request(5)
release 1 1 -> Released(Released), 1 Released
query 1 -> held b/exclusive/1 c/exclusive/1, waiting b/shared/1 c/shared/1
request 1 a -> Request(6), 6 Granted
request 1 a shared -> Request(7)
query 1 -> held b/exclusive/1 c/exclusive/1 a/exclusive/1, waiting b/shared/1 c/shared/1 a/shared/1
terminate 1 -> Done, 4 Aborted(AbortError), 5 Aborted(AbortError), 7 Aborted(AbortError), 2 Released, 3 Released, 6 Released
";

/// `available` of a lock that is held, and then a steal of it.
const NOT_AVAILABLE_AND_STOLEN: &str = "\
open window -> Agent(1)
open window -> Agent(2)
request 1 db -> Request(1), 1 Granted
request 2 db shared available -> Request(2), 2 Unavailable
request 2 db steal -> Request(3), 1 Stolen, 3 Granted
query 1 -> held db/exclusive/2, waiting
";

/// A reader is available beside another one until a writer waits. Then both readers lose the lock to a thief, and the
/// writer goes on waiting.
const AVAILABLE_UNTIL_A_WRITER_WAITS: &str = "\
open window -> Agent(1)
open window -> Agent(2)
request 1 db shared -> Request(1), 1 Granted
request 2 db shared available -> Request(2), 2 Granted
request 1 db -> Request(3)
request 2 db shared available -> Request(4), 4 Unavailable
request 2 other available -> Request(5), 5 Granted
request 2 db steal -> Request(6), 1 Stolen, 2 Stolen, 6 Granted
query 1 -> held other/exclusive/2 db/exclusive/2, waiting db/exclusive/1
release 2 6 -> Released(Released), 6 Released, 3 Granted
";

const A_READER_BEHIND_A_WRITER: &str = "\
open window -> Agent(1)
open window -> Agent(2)
open window -> Agent(3)
request 1 db shared -> Request(1), 1 Granted
take 1 -> Took(Taken)
request 2 db -> Request(2)
request 3 db shared -> Request(3)
query 1 -> held db/shared/1, waiting db/exclusive/2 db/shared/3
release 1 1 -> Released(Released), 1 Released, 2 Granted
take 2 -> Took(Taken)
release 2 2 -> Released(Released), 2 Released, 3 Granted
take 3 -> Took(Taken)
";

pub const LISTS: &[&str] = &[
    AGENTS_COME_AND_GO,
    ONE_LOCK,
    AN_ABORT,
    AN_ABORT_WITH_A_CODE,
    GRANTED_OUT_OF_ORDER,
    HELD_AND_WAITED_FOR,
    NAMES_IN_ORDER_OF_USE,
    NOT_AVAILABLE_AND_STOLEN,
    AVAILABLE_UNTIL_A_WRITER_WAITS,
    A_READER_BEHIND_A_WRITER,
];

/// A list as it comes out of a new core of the kind.
pub fn run_list<C: LockCore>(alloc: Global, seed: C::Seed, list: &str) -> Result<String, Memory> {
    let mut core: C = opening(alloc, seed);
    do_list(alloc, &mut core, list)
}

#[test]
fn the_plain_core_does_the_lists(rt: HostRuntime) -> Result<(), Fail> {
    for list in LISTS {
        assert_eq!(rt;
            run_list::<PlainCore>(rt.alloc(), (), list)?.as_str(),
            *list
        );
    }
    Ok(())
}

#[test]
fn the_indexed_core_does_the_lists(rt: HostRuntime) -> Result<(), Fail> {
    for list in LISTS {
        assert_eq!(rt;
            run_list::<IndexCore>(rt.alloc(), random_seed(&rt)?, list)?.as_str(),
            *list
        );
    }
    Ok(())
}
