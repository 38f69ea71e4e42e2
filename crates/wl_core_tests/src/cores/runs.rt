//! A list of commands.

use std::alloc::Global;
use std::test::Fail;
use wl_core::{LockCore, PlainCore, run_commands};
use wl_index::{IndexCore, random_seed};
use wl_test_support::{opening, reader_behind_writer, show};
use wl_types::Memory;

/// The replies to the commands of `reader_behind_writer`.
const REPLIES: &str = "\
Agent(1)
Agent(2)
Agent(3)
Request(1)
Took(Taken)
Request(2)
Request(3)
held db/shared/1, waiting db/exclusive/2 db/shared/3
Released(Released)
Took(Taken)
Released(Released)
Took(Taken)
";

/// The replies of a new core of the kind.
fn replies<C: LockCore>(alloc: Global, seed: C::Seed) -> Result<String, Memory> {
    let mut core: C = opening(alloc, seed);
    let commands = reader_behind_writer(alloc)?;
    let Ok(replies) = run_commands(alloc, &mut core, &commands) else {
        return Err(Memory);
    };
    let mut text = String::new(alloc);
    for reply in replies.as_slice() {
        text.push_str(show(alloc, reply)?.as_str())?;
        text.push_str("\n")?;
    }
    Ok(text)
}

#[test]
fn the_plain_core_replies_in_turn(rt: HostRuntime) -> Result<(), Fail> {
    assert_eq!(rt; replies::<PlainCore>(rt.alloc(), ())?.as_str(), REPLIES);
    Ok(())
}

#[test]
fn the_indexed_core_gives_the_same_replies(rt: HostRuntime) -> Result<(), Fail> {
    let seed = random_seed(&rt)?;
    assert_eq!(rt; replies::<IndexCore>(rt.alloc(), seed)?.as_str(), REPLIES);
    Ok(())
}
