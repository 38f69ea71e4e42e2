//! A live request, and whose it is.
ghost use Rattle.std.specs.Prelude.{◌≡◌, ◌==◌, ◌&&◌, ℕ, Some};
ghost use Rattle.wl_machine.specs.Step.{is_signal};
ghost use Rattle.wl_index.specs.inner.Rows.{holds, is_fresh, is_taken, taken_stage};
ghost use Rattle.wl_index.specs.declared.request.Standing.TheVariants.{Waits, Holds};
ghost use Rattle.wl_index.specs.inner.Ends.{ends_request, ends_lock, ends_entry, place_if};

use wl_types::{Mode, Name};

/// Where a live request stands: in its queue, or among the locks, by its grant sequence and whether it was taken.
#[derive(Clone, Copy, Debug, PartialEq, Eq, Drop)]
pub enum Stage {
    Pending,
    Held(u64, bool),
}

/// A live request without its number.
#[derive(Drop)]
pub struct Request {
    pub agent: u64,
    pub name: Name,
    pub mode: Mode,
    pub signal: Option<u64>,
    pub stage: Stage,
}

/// Whose requests and locks end.
#[derive(Clone, Copy, Drop)]
pub(crate) enum Owner {
    /// The agent's signal: its requests, and its locks that were not taken.
    Signal(u64, u64),
    /// The agent: its requests and its locks.
    Agent(u64),
}

/// Where what ends stands: among the requests that wait, or among the locks.
#[derive(Clone, Copy, Drop)]
pub(crate) enum Standing {
    Waits,
    Holds,
}

/// A lock's place in the order of grants, and its number.
#[derive(Clone, Copy, Drop)]
pub(crate) struct Place {
    pub grant_seq: u64,
    pub number: u64,
}

/// Whether a request is an agent's lock.
pub(crate) fn is_held_by(request: &Request, agent: u64) -> bool
    ensures { result ≡ (holds request.now.stage && request.now.agent == agent) }
{
    match request.stage {
        Stage::Held(_, _) => request.agent == agent,
        Stage::Pending => false,
    }
}

/// Whether a lock was taken.
pub(crate) fn is_taken(stage: Stage) -> bool
    ensures { result ≡ is_taken stage }
{
    match stage {
        Stage::Held(_, taken) => taken,
        Stage::Pending => false,
    }
}

/// Marks a lock as taken. False: it was taken before, or is no lock.
pub(crate) fn mark_taken(request: &mut Request) -> bool
    ensures found { result ≡ is_fresh request.old.stage }
    ensures marked { request.new ≡ record request.old { stage = taken_stage request.old.stage } }
{
    match request.stage {
        Stage::Held(grant_seq, false) => {
            request.stage = Stage::Held(grant_seq, true);
            true
        }
        _ => false,
    }
}

fn has_signal(request: &Request, signal: u64) -> bool
    ensures { result ≡ is_signal signal request.now.signal }
{
    match request.signal {
        Some(other) => other == signal,
        None => false,
    }
}

/// Whether a request that waits ends with its owner.
fn is_request_to_end(request: &Request, owner: Owner) -> bool
    ensures { (number : ℕ) → result ≡ ends_request owner (record {
      number = number;
      agent = request.now.agent;
      name = request.now.name;
      mode = request.now.mode;
      signal = request.now.signal;
    }) }
{
    match owner {
        Owner::Signal(agent, signal) => request.agent == agent && has_signal(request, signal),
        Owner::Agent(agent) => request.agent == agent,
    }
}

/// Whether a lock ends with its owner.
fn is_lock_to_end(request: &Request, taken: bool, owner: Owner) -> bool
    ensures { (number : ℕ) → result ≡ ends_lock owner (record {
      number = number;
      agent = request.now.agent;
      name = request.now.name;
      mode = request.now.mode;
      signal = request.now.signal;
      taken = taken;
    }) }
{
    match owner {
        Owner::Signal(agent, signal) => {
            request.agent == agent && has_signal(request, signal) && !taken
        }
        Owner::Agent(agent) => request.agent == agent,
    }
}

/// The place of a request that waits, if it ends with its owner.
fn waiting_place(number: u64, request: &Request, owner: Owner) -> Option<Place>
    ensures { result ≡ place_if (ends_entry owner Waits) number (Some request.now) }
{
    match request.stage {
        Stage::Pending => {
            if is_request_to_end(request, owner) {
                Some(Place {
                    grant_seq: 0,
                    number,
                })
            } else {
                None
            }
        }
        Stage::Held(_, _) => None,
    }
}

/// The place of a lock, if it ends with its owner.
fn lock_place(number: u64, request: &Request, owner: Owner) -> Option<Place>
    ensures { result ≡ place_if (ends_entry owner Holds) number (Some request.now) }
{
    match request.stage {
        Stage::Pending => None,
        Stage::Held(grant_seq, taken) => {
            if is_lock_to_end(request, taken, owner) {
                Some(Place { grant_seq, number })
            } else {
                None
            }
        }
    }
}

/// The place of a request, if it stands so and ends with its owner.
pub(crate) fn ending_place(
    number: u64,
    request: &Request,
    owner: Owner,
    standing: Standing,
) -> Option<Place>
    ensures { result ≡ place_if (ends_entry owner standing) number (Some request.now) }
{
    match standing {
        Standing::Waits => waiting_place(number, request, owner),
        Standing::Holds => lock_place(number, request, owner),
    }
}
