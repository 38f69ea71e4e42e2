//! Whether two replies are equal.

ghost use Rattle.std.specs.Prelude.{◌≡◌};
ghost use Rattle.std.specs.Bool.{Decides};

use wl_core::Reply;
use wl_types::{LockInfo, Snapshot};

fn same_info(one: &LockInfo, other: &LockInfo) -> bool
    ensures { Decides result (one.now ≡ other.now) }
{
    one == other
}

fn same_infos(one: &[LockInfo], other: &[LockInfo]) -> bool
    ensures { Decides result (one.now ≡ other.now) }
{
    if one.len() != other.len() {
        return false;
    }
    for i in 0..one.len() {
        if !same_info(&one[i], &other[i]) {
            return false;
        }
    }
    true
}

fn same_snapshot(one: &Snapshot, other: &Snapshot) -> bool
    ensures { Decides result (one.now ≡ other.now) }
{
    same_infos(one.held.as_slice(), other.held.as_slice())
        && same_infos(one.pending.as_slice(), other.pending.as_slice())
}

/// Whether the two are equal.
pub fn same_reply(one: &Reply, other: &Reply) -> bool
    ensures { Decides result (one.now ≡ other.now) }
{
    match (one, other) {
        (Reply::Agent(one), Reply::Agent(other)) => *one == *other,
        (Reply::Signal(one), Reply::Signal(other)) => *one == *other,
        (Reply::Request(one), Reply::Request(other)) => *one == *other,
        (Reply::Took(one), Reply::Took(other)) => *one == *other,
        (Reply::Released(one), Reply::Released(other)) => *one == *other,
        (Reply::Aborted(one), Reply::Aborted(other)) => *one == *other,
        (Reply::Done, Reply::Done) => true,
        (Reply::Seen(one), Reply::Seen(other)) => same_snapshot(one, other),
        (Reply::Refused(one), Reply::Refused(other)) => *one == *other,
        _ => false,
    }
}
