//! The limits of a manager, reached.

use std::alloc::Global;
use std::hash::RandomState;
use std::test::Fail;
use wl_core::{LockCore, PlainCore};
use wl_index::{IndexCore, random_seed};
use wl_test_support::{do_list, do_list_often, letters, opening};
use wl_types::{Memory, Numbers};

/// The list as it comes out of a new core that has done this call so often.
fn run_after<C: LockCore>(
    alloc: Global,
    seed: C::Seed,
    first: &str,
    often: (u64, &str),
    list: &str,
) -> Result<String, Memory> {
    let mut core: C = opening(alloc, seed);
    do_list(alloc, &mut core, first)?;
    let (times, call) = often;
    do_list_often(alloc, &mut core, times, call)?;
    do_list(alloc, &mut core, list)
}

const ONE_AGENT_TOO_MANY: &str = "\
open window -> Agent(4096)
open worker -> Limit/agents
terminate 7 -> Done
open worker -> Agent(4097)
";

const TWO_AGENTS: &str = "\
open window -> Agent(1)
open window -> Agent(2)
";

const ONE_SIGNAL_TOO_MANY: &str = "\
signal 1 -> Signal(1024)
signal 1 -> Limit/signals
signal 2 -> Signal(1025)
";

/// What is done before a call is, how often that is done, and the list then.
const LIMITS: &[(&str, (u64, &str), &str)] = &[
    ("", (4095, "open window"), ONE_AGENT_TOO_MANY),
    (TWO_AGENTS, (1023, "signal 1"), ONE_SIGNAL_TOO_MANY),
];

/// The lists, one behind another.
fn all_lists(alloc: Global) -> Result<String, Memory> {
    let mut all = String::new(alloc);
    for (_, _, list) in LIMITS {
        all.push_str(list)?;
    }
    Ok(all)
}

/// The same as they come out.
fn run_all<S: Copy + Drop, C: LockCore<Seed = S>>(
    alloc: Global,
    seed: S,
) -> Result<String, Memory> {
    let mut all = String::new(alloc);
    for (first, often, list) in LIMITS {
        let came = run_after::<C>(alloc, seed, first, *often, list)?;
        all.push_str(came.as_str())?;
    }
    Ok(all)
}

#[test]
fn agents_and_signals_have_limits(rt: HostRuntime) -> Result<(), Fail> {
    let lists = all_lists(rt.alloc())?;
    let came = run_all::<(), PlainCore>(rt.alloc(), ())?;
    assert_eq!(rt; came.as_str(), lists.as_str());
    let came = run_all::<RandomState, IndexCore>(rt.alloc(), random_seed(&rt)?)?;
    assert_eq!(rt; came.as_str(), lists.as_str());
    Ok(())
}

/// A release makes room for one; its number is the next.
const ONE_REQUEST_TOO_MANY: &str = "\
request 1 db -> Request(65536)
request 1 db -> Limit/requests
request 1 db steal -> Limit/requests
request 1 other available -> Limit/requests
release 1 1 -> Released(Released), 1 Released, 2 Granted
request 1 db -> Request(65537)
request 1 db -> Limit/requests
";

#[test]
fn at_most_65536_requests_are_live(rt: HostRuntime) -> Result<(), Fail> {
    let came = run_after::<IndexCore>(
        rt.alloc(),
        random_seed(&rt)?,
        "open window",
        (65_535, "request 1 db"),
        ONE_REQUEST_TOO_MANY,
    )?;
    assert_eq!(rt; came.as_str(), ONE_REQUEST_TOO_MANY);
    Ok(())
}

/// A name that is as long as it may be, and one that is longer.
fn long_names(alloc: Global) -> Result<String, Memory> {
    let longest = letters(alloc, 1024)?;
    Ok(format!(in alloc;
        "request 1 {longest} -> Request(1), 1 Granted\nrequest 1 {longest}x -> Limit/name-length\n"
    )?)
}

#[test]
fn a_name_has_at_most_1024_letters(rt: HostRuntime) -> Result<(), Fail> {
    let list = long_names(rt.alloc())?;
    let came = run_after::<PlainCore>(rt.alloc(), (), "open window", (0, ""), list.as_str())?;
    assert_eq!(rt; came.as_str(), list.as_str());
    Ok(())
}

const THE_LAST_REQUEST: &str = "\
open window -> Agent(1)
request 1 db -> Request(9007199254740991), 9007199254740991 Granted
request 1 db -> Limit/numbers
request 1 db steal -> Limit/numbers
request 1 other available -> Limit/numbers
query 1 -> held db/exclusive/1, waiting
";

/// The list as it comes out of a core whose next request has the last number.
fn run_at_the_last<C: LockCore>(alloc: Global, seed: C::Seed) -> Result<String, Memory> {
    let next = Numbers {
        agent: 1,
        request: 9007199254740991,
        signal: 1,
    };
    let mut core = C::make(alloc, seed, next);
    do_list(alloc, &mut core, THE_LAST_REQUEST)
}

#[test]
fn the_last_number_is_below_two_to_the_53(rt: HostRuntime) -> Result<(), Fail> {
    let came = run_at_the_last::<PlainCore>(rt.alloc(), ())?;
    assert_eq!(rt; came.as_str(), THE_LAST_REQUEST);
    let came = run_at_the_last::<IndexCore>(rt.alloc(), random_seed(&rt)?)?;
    assert_eq!(rt; came.as_str(), THE_LAST_REQUEST);
    Ok(())
}
