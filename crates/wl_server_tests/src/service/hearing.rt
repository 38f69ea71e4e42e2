//! A client whose bell rings.

use crate::lists::show;
use std::alloc::Global;
use std::sync::{Arc, Wait};
use std::test::Fail;
use wl_manager::{Bell, Ring};
use wl_service::{Client, OpenFault, Service};
use wl_types::{Kind, Memory, Text};

/// Opens a window in the bucket `default` with a bell of this place.
pub fn open<R: Wait>(
    rt: &R,
    alloc: Global,
    service: &Service,
    ring: &Arc<Ring>,
    url: &str,
    place: usize,
) -> Result<Client, OpenFault> {
    match bell_and_bucket(alloc, ring, place as u64) {
        Ok((bell, bucket)) => service.open_heard(rt, url, bucket, Kind::Window, Some(bell)),
        Err(Memory) => Err(OpenFault::Memory),
    }
}

fn bell_and_bucket(alloc: Global, ring: &Arc<Ring>, place: u64) -> Result<(Bell, Text), Memory> {
    let bell = Bell::new(alloc, ring, place)?;
    Ok((bell, Text::of(alloc, "default")?))
}

/// Silences the client's bell, and adds whether it counts as rung.
pub fn silence(came: &mut String, client: &Client) -> Result<(), Fail> {
    client.silence_bell();
    show(came, Some(client.is_rung()))
}

/// Adds whether the client was rung, the places that its bell added, and whether these are all.
pub fn put_hearing(
    alloc: Global,
    came: &mut String,
    client: &Client,
    ring: &Arc<Ring>,
) -> Result<(), Fail> {
    let word = if client.is_rung() { "rung" } else { "silent" };
    let mut places = Vec::new(alloc);
    let are_all = ring.collect(&mut places);
    write!(came, "{word} {places:?} {are_all}\n")?;
    Ok(())
}

/// Adds the requests of the client that changed, and whether these are all.
pub fn put_changes(alloc: Global, came: &mut String, client: &mut Client) -> Result<(), Fail> {
    let mut changed = Vec::new(alloc);
    let are_all = client.changed_requests(&mut changed);
    write!(came, "changed {changed:?} {are_all}\n")?;
    Ok(())
}

/// The request that waits is the second. It is heard of before the other client gives up its lock, and after.
const A_BELL_RINGS_WHEN_A_REQUEST_CHANGES: &str = "\
open_heard window 7 https://a.test/ -> Ok(Some(1))
open window https://a.test/ -> Ok(Some(2))
request 2 db -> Ok(1)
request 1 db -> Ok(2)
hear 1 -> silent [] true
release 2 1 -> Released
hear 1 -> rung [7] true
changes 1 -> changed [2] true
hear 1 -> silent [] true
";

/// The client changes its requests itself. An opaque client has no bell.
const A_SILENCED_BELL_RINGS_ONCE_THE_CHANGES_WERE_COLLECTED: &str = "\
open_heard window 7 https://a.test/ -> Ok(Some(1))
silence 1 -> true
request 1 db -> Ok(1)
hear 1 -> rung [] true
changes 1 -> changed [1] true
release 1 1 -> Released
hear 1 -> rung [7] true
open window data:,one -> Ok(None)
silence 2 -> false
";

pub const LISTS: &[&str] = &[
    A_BELL_RINGS_WHEN_A_REQUEST_CHANGES,
    A_SILENCED_BELL_RINGS_ONCE_THE_CHANGES_WERE_COLLECTED,
];
