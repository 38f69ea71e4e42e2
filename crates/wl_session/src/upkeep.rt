//! When ends leave a reported list.

ghost use Rattle.std.specs.Prelude.{◌≡◌, ◌+◌, ◌≤◌, Bool, true, false, length, filter, vec_len, vec_capacity, OnOk};
ghost use Rattle.wl_session.specs.LastReported.{is_live, with_observed};
ghost use Rattle.wl_session.specs.inner.Upkeep.{IsKept};

use crate::last_reported::{drop_ends, put_all, report_at_once};
use wl_types::{Memory, Phase};

/// When the requests whose end was reported leave a reported list. What a session tells is the same either way.
pub trait Upkeep {
    ghost AT_ONCE: { Bool };

    /// Whether each end leaves as it is reported. Elsewhere it keeps its place, as one of which nothing was reported.
    const AT_ONCE: bool;
}

/// Each end leaves as it is reported, and what is behind it moves up: the list is the reported list, and can be shown.
#[derive(Drop)]
pub struct AtOnce;

impl Upkeep for AtOnce {
    ghost AT_ONCE = { true };

    const AT_ONCE: bool = true;
}

/// Ends stay where they are until the list is full, and then leave together. So no end moves the list behind it: on
/// average it costs a bounded number of steps and a search, however many requests are live.
#[derive(Drop)]
pub struct InTime;

impl Upkeep for InTime {
    ghost AT_ONCE = { false };

    const AT_ONCE: bool = false;
}

/// Makes room for so many observations. Where ends stay, those of a full list leave first, and at least half of it is
/// free then: before it is full again as many observations have come as pay for going over it.
pub(crate) fn make_room<U: Upkeep>(
    last_reported: &mut Vec<(u64, Phase)>,
    observed: usize,
) -> Result<(), Memory>
    requires { IsKept U.AT_ONCE last_reported.old.items }
    ensures last_reported { filter is_live last_reported.new.items ≡ filter is_live last_reported.old.items }
    ensures kept { IsKept U.AT_ONCE last_reported.new.items }
    ensures room { OnOk result (vec_len last_reported.new + observed ≤ vec_capacity last_reported.new) }
{
    if !U::AT_ONCE && last_reported.capacity() - last_reported.len() < observed {
        drop_ends(last_reported);
        last_reported.reserve(last_reported.len())?;
    }
    last_reported.reserve(observed)?;
    Ok(())
}

/// Puts what was found into a list with room for it. It needs no memory.
pub(crate) fn report<U: Upkeep>(last_reported: &mut Vec<(u64, Phase)>, observed: &[(u64, Phase)])
    requires kept { IsKept U.AT_ONCE last_reported.old.items }
    requires room { vec_len last_reported.old + length observed.now ≤ vec_capacity last_reported.old }
    ensures last_reported { filter is_live last_reported.new.items
        ≡ with_observed (filter is_live last_reported.old.items) observed.now }
    ensures kept { IsKept U.AT_ONCE last_reported.new.items }
{
    if U::AT_ONCE {
        report_at_once(last_reported, observed);
    } else {
        put_all(last_reported, observed);
    }
}
