//! What the tests of several crates begin with, and how a test ends that was refused memory.
//!
//! The functions have no contract: the tests run them, and prove nothing by them.
#![tactic(auto)]

mod answers;
mod calls;
mod no_random;

pub use answers::show;
pub use calls::{do_list, do_list_often};
pub use no_random::NoRandom;
use std::alloc::Global;
use std::test::Fail;
use wl_core::{Command, LockCore};
use wl_origin::{ManagerKey, OriginKey, Standing, key_of, manager_of};
use wl_types::{Ask, Kind, Memory, Mode, Numbers, Text};

/// A core, of whatever kind, whose next numbers are all 1.
pub fn opening<C: LockCore>(alloc: Global, seed: C::Seed) -> C {
    let next = Numbers {
        agent: 1,
        request: 1,
        signal: 1,
    };
    C::make(alloc, seed, next)
}

/// A request without options.
pub fn ask(alloc: Global, name: &str, mode: Mode) -> Result<Ask, Memory> {
    Ok(Ask {
        name: Text::of(alloc, name)?,
        mode,
        if_available: false,
        steal: false,
        signal: None,
    })
}

/// An exclusive request with a signal.
pub fn ask_with_signal(alloc: Global, name: &str, signal: u64) -> Result<Ask, Memory> {
    let mut asked = ask(alloc, name, Mode::Exclusive)?;
    asked.signal = Some(signal);
    Ok(asked)
}

/// A reader has the lock, a writer waits for it, and another reader behind the writer; a query shows them. Then each
/// takes its lock and gives it up.
pub fn reader_behind_writer(alloc: Global) -> Result<Vec<Command>, Memory> {
    let mut commands = Vec::new(alloc);
    for _ in 0..3 {
        commands.push(Command::Enter(Kind::Window))?;
    }
    commands.push(Command::Request(1, ask(alloc, "db", Mode::Shared)?))?;
    commands.push(Command::Take(1))?;
    commands.push(Command::Request(2, ask(alloc, "db", Mode::Exclusive)?))?;
    commands.push(Command::Request(3, ask(alloc, "db", Mode::Shared)?))?;
    commands.push(Command::Query(1))?;
    for (agent, next) in [(1, 2), (2, 3)] {
        commands.push(Command::Release(agent, agent))?;
        commands.push(Command::Take(next))?;
    }
    Ok(commands)
}

/// A text of this many letters `x`.
pub fn letters(alloc: Global, count: usize) -> Result<String, Memory> {
    let mut text = String::new(alloc);
    for _ in 0..count {
        text.push_str("x")?;
    }
    Ok(text)
}

/// The origin of a URL that has one.
pub fn origin_key(alloc: Global, url: &str) -> Result<OriginKey, Fail> {
    match key_of(alloc, url)? {
        Standing::Tuple(origin) => Ok(origin),
        Standing::Opaque => Err(Fail::new("an opaque origin")),
    }
}

/// The key of the bucket `default` of a URL's origin.
pub fn key(alloc: Global, url: &str) -> Result<ManagerKey, Fail> {
    key_in(alloc, url, "default")
}

/// The key of a bucket of a URL's origin.
pub fn key_in(alloc: Global, url: &str, bucket: &str) -> Result<ManagerKey, Fail> {
    match manager_of(alloc, url, bucket)? {
        Some(key) => Ok(key),
        None => Err(Fail::new("an opaque origin")),
    }
}

/// How a test ends that met a refusal. tests/refuse_growths, which makes the N-th growth of a run of a test fail, knows
/// the two texts.
pub fn fail_refused(is_as_before: bool) -> Result<(), Fail> {
    if is_as_before {
        Err(Fail::new("refused, and all is as before"))
    } else {
        Err(Fail::new("refused, and something changed"))
    }
}
