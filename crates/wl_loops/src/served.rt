//! The connections that a loop serves.

ghost use Rattle.std.specs.Prelude.{◌≡◌, ◌≢◌, ℕ};
ghost use Rattle.slab.specs.Slab.{get};
ghost use Rattle.wl_loops.specs.Sweeps.{EachSpared, EachWatched, Spared, Watched};

use crate::connection::Connection;
use crate::host::Host;
use crate::shared::{Hold, Shared};
use slab::Slab;
use std::sync::Wait;
use wl_liveness::Limits;

/// A connection, and the place that it has.
#[derive(Drop)]
pub(crate) struct Served<'a, R: Wait, H: Host> {
    pub connection: Connection<'a, R, H>,
    pub hold: Hold,
}

/// Looks at all connections: silent peers are pinged, and those that are over end and give their places back. All that
/// came up to `now` is known, and pings leave at `sent`.
pub(crate) fn watch_all<'a, R: Wait, H: Host>(
    rt: &R,
    shared: &Shared<H>,
    event_loop: usize,
    served: &mut Slab<Served<'a, R, H>>,
    now: u64,
    sent: u64,
)
    ensures { EachWatched (λ one. one.connection.liveness) now sent (H.held_to shared.now.host) served.old served.new }
{
    let limits = *shared.host.limits();
    for key in 0..served.capacity() {
        if let Some(hold) = watch_one(served, key, now, sent, &limits) {
            shared.leave(rt, event_loop, hold);
        }
    }
}

/// Looks at the connection of this key. One that is over ends, and is answered by its place.
fn watch_one<'a, R: Wait, H: Host>(
    served: &mut Slab<Served<'a, R, H>>,
    key: usize,
    now: u64,
    sent: u64,
    limits: &Limits,
) -> Option<Hold>
    ensures watched { Watched (λ one. one.connection.liveness) now sent limits.now (get served.old key)
        (get served.new key) }
    ensures others { (other : ℕ) → other ≢ key → get served.new other ≡ get served.old other }
{
    let is_over = match served.get_mut(key) {
        Some(one) => one.connection.watch(now, sent, limits),
        None => false,
    };
    if !is_over {
        return None;
    }
    match served.try_remove(key) {
        Some(Served { connection, hold }) => {
            drop(connection);
            Some(hold)
        }
        None => None,
    }
}

/// For so many milliseconds the loop served nobody: that is no peer's silence.
pub(crate) fn spare_all<'a, R: Wait, H: Host>(served: &mut Slab<Served<'a, R, H>>, time: u64)
    ensures { EachSpared (λ one. one.connection.liveness) time served.old served.new }
{
    for key in 0..served.capacity() {
        spare_one(served, key, time);
    }
}

/// Spares the connection of this key, if there is one.
fn spare_one<'a, R: Wait, H: Host>(served: &mut Slab<Served<'a, R, H>>, key: usize, time: u64)
    ensures spared { Spared (λ one. one.connection.liveness) time (get served.old key) (get served.new key) }
    ensures others { (other : ℕ) → other ≢ key → get served.new other ≡ get served.old other }
{
    if let Some(one) = served.get_mut(key) {
        one.connection.spare(time);
    }
}
