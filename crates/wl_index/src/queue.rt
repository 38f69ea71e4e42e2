//! One name in use.
ghost use Rattle.std.specs.Prelude.{map, ◌≡◌, ◌<◌, [], ◌∷◌, OnOk, OnErr, slice_get, Some, None, ◌&&◌};
ghost use Rattle.std.specs.List.{AllByRecursion};
ghost use Rattle.wl_types.specs.declared.words.Mode.TheVariants.{Exclusive};
ghost use Rattle.wl_machine.specs.Grants.{is_empty};
ghost use Rattle.wl_index.specs.inner.NameQueue.{admits, excludes, next_grant, after_grant, is_busy, with_one_more};
ghost use Rattle.wl_index.specs.inner.NameQueue.{without, holder_without, head_number, live_after, first_left};
ghost use Rattle.wl_index.specs.inner.NameQueue.{first_or};

use std::alloc::Global;
use std::collections::BTreeMap;
use std::collections::btree_map::Range;
use std::marker::Model;
use std::ops::Bound;
use wl_machine::exclusive;
use wl_types::{Memory, Mode, Name};

/// Who waits for a name and who holds it. Those that share it stand in front of those that wait, so that a grant takes
/// no memory: it moves the mark of the first that waits. An exclusive holder is kept apart.
#[derive(Drop)]
pub struct NameQueue {
    name: Name,
    live: BTreeMap<u64, Mode>,
    // The first of the live that waits.
    first: Option<u64>,
    holder: Option<u64>,
}

impl Model for NameQueue {
    ghost use Rattle.wl_index.specs.inner.NameQueue.{Waiting, holders_of, waits_from, IsQueue};

    ghost Value = { Waiting };

    ghost view = { λ q. record {
      name = q.name;
      waits = waits_from q.first q.live.entries;
      holders = holders_of q.holder q.live.entries (waits_from q.first q.live.entries);
    } };

    ghost invariant = { λ q. IsQueue q.live.entries (waits_from q.first q.live.entries) q.first q.holder };
}

/// The exclusive holder, unless it has this number.
fn unless(holder: Option<u64>, number: u64) -> Option<u64>
    ensures { result ≡ holder_without number holder }
{
    match holder {
        Some(other) => { if other == number { None } else { Some(other) } }
        None => None,
    }
}

/// The least number of the live.
fn first_of(live: &BTreeMap<u64, Mode>) -> Option<u64>
    ensures { result ≡ head_number live.now.entries }
{
    let (number, _) = live.first_key_value()?;
    Some(*number)
}

/// The least number of the live after this one.
fn first_after(live: &BTreeMap<u64, Mode>, number: u64) -> Option<u64>
    ensures { result ≡ head_number (live_after number live.now.entries) }
{
    let (after, _) = live
        .range((Bound::Excluded(number), Bound::Unbounded))
        .next()?;
    Some(*after)
}

/// The first that waits once this number has left.
fn first_left(live: &BTreeMap<u64, Mode>, first: Option<u64>, number: u64) -> Option<u64>
    ensures { result ≡ first_left number first live.now.entries }
{
    if first == Some(number) {
        first_after(live, number)
    } else {
        first
    }
}

/// The first that waits, which is the new one where no other does.
fn or_number(first: Option<u64>, number: u64) -> Option<u64>
    ensures { result ≡ first_or number first }
{
    match first {
        Some(other) => Some(other),
        None => Some(number),
    }
}

impl NameQueue {
    pub fn new(alloc: Global, name: Name) -> NameQueue
        ensures { result ≡ record { name = name; waits = []; holders = [] } }
    {
        NameQueue {
            name,
            live: BTreeMap::new(alloc),
            first: None,
            holder: None,
        }
    }

    pub fn name(&self) -> &Name
        ensures { result.now ≡ self.now.name }
    {
        &self.name
    }

    /// Those that wait, in the order of the queue.
    pub fn waiters(&self) -> Range<'_, u64, Mode>
        ensures { result ≡ self.now.waits }
    {
        match self.first {
            Some(first) => self.live.range(first..),
            None => self.live.range(..0),
        }
    }

    /// The first that waits.
    fn first(&self) -> Option<(u64, Mode)>
        ensures { result ≡ slice_get self.now.waits 0 }
    {
        let (number, mode) = self.waiters().next()?;
        Some((*number, *mode))
    }

    /// Whether nobody holds the name.
    fn is_free(&self) -> bool
        ensures { result ≡ is_empty self.now.holders }
    {
        self.holder.is_none() && first_of(&self.live) == self.first
    }

    /// Whether one of the holders is exclusive.
    fn excludes(&self) -> bool
        ensures { result ≡ excludes self.now.holders }
    {
        self.holder.is_some()
    }

    /// Whether a request of this mode may be granted beside the holders.
    fn admits(&self, mode: Mode) -> bool
        ensures { result ≡ admits self.now mode }
    {
        if exclusive(mode) {
            self.is_free()
        } else {
            !self.excludes()
        }
    }

    /// Whether a request of this mode would be granted at once.
    pub fn is_available(&self, mode: Mode) -> bool
        ensures { result ≡ (is_empty self.now.waits && admits self.now mode) }
    {
        self.first.is_none() && self.admits(mode)
    }

    /// A request that waits, after the others.
    pub fn push(&mut self, number: u64, mode: Mode) -> Result<(), Memory>
        requires waits { AllByRecursion (λ e. e.0 < number) self.old.waits }
        requires holders { AllByRecursion (λ e. e.0 < number) self.old.holders }
        ensures ok { OnOk result (self.new ≡ with_one_more self.old number mode) }
        ensures err { OnErr result (self.new ≡ self.old) }
    {
        self.live.insert(number, mode)?;
        self.first = or_number(self.first, number);
        Ok(())
    }

    /// The request or the lock of this number ends.
    pub fn remove(&mut self, number: u64)
        ensures { self.new ≡ without number self.old }
    {
        self.holder = unless(self.holder, number);
        self.first = first_left(&self.live, self.first, number);
        self.live.remove(&number);
    }

    /// Whether a lock or a request has the name.
    pub fn is_busy(&self) -> bool
        ensures { result ≡ is_busy self.now }
    {
        !(self.is_free() && self.first.is_none())
    }

    /// The first that waits holds, if it may.
    pub fn grant_first(&mut self) -> Option<u64>
        ensures number { result ≡ next_grant self.old }
        ensures after { self.new ≡ after_grant self.old }
    {
        let Some((number, mode)) = self.first() else {
            return None;
        };
        if !self.admits(mode) {
            return None;
        }
        self.first = first_after(&self.live, number);
        if exclusive(mode) {
            self.live.pop_first();
            self.holder = Some(number);
        }
        Some(number)
    }

    /// The first of the holders.
    pub fn first_holder(&self) -> Option<(u64, Mode)>
        ensures { result ≡ slice_get self.now.holders 0 }
    {
        if let Some(number) = self.holder {
            return Some((number, Mode::Exclusive));
        }
        if self.is_free() {
            return None;
        }
        let (number, mode) = self.live.first_key_value()?;
        Some((*number, *mode))
    }

    /// The number of the first of the holders.
    pub fn first_number(&self) -> Option<u64>
        ensures { result ≡ slice_get (map (λ e. e.0) self.now.holders) 0 }
    {
        let (number, _) = self.first_holder()?;
        Some(number)
    }

    /// A request that steals holds the name, which nobody holds.
    pub fn seize(&mut self, number: u64)
        requires { self.old.holders ≡ [] }
        ensures { self.new ≡ record self.old { holders = (number, Exclusive) ∷ [] } }
    {
        self.holder = Some(number);
    }
}
