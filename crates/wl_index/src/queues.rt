//! The names in use, each with its queue.
ghost use Rattle.std.specs.Prelude.{◌≡◌, ◌<◌, List, [], ◌∷◌, ◌++◌, IfOk, OnOk, OnErr, IfSome};
ghost use Rattle.std.specs.Prelude.{IfNone, Some, None};
ghost use Rattle.std.specs.List.{AllByRecursion};
ghost use Rattle.std.specs.Option.{option_copied};
ghost use Rattle.wl_index.specs.inner.NameQueue.{without, after_seize, after_grant, is_busy, with_one_more};
ghost use Rattle.wl_index.specs.inner.Queues.{AreQueues, IsBelow, at_place, grant_at, place_of, queue_of, with_joined};
ghost use Rattle.wl_index.specs.inner.Queues.{with_updated, without_idle};

use crate::queue::NameQueue;
use indexmap::IndexMap;
use std::alloc::Global;
use std::hash::RandomState;
use std::marker::Model;
use wl_number_map::{NumberMap, Rows};
use wl_types::{Memory, Mode, Name};

/// The queues by their places, and the place of each name's. A place is the number of the request that brought the
/// name into use: so places are in the order of use, and no removal moves one. Names are hashed by random words, since
/// strangers choose them.
#[derive(Drop)]
pub struct Queues {
    queues: NumberMap<NameQueue>,
    places: IndexMap<String, u64, RandomState>,
    alloc: Global,
}

impl Model for Queues {
    ghost use Rattle.std.specs.Prelude.{List};
    ghost use Rattle.std.specs.HashMap.{get_by_text};
    ghost use Rattle.wl_index.specs.inner.Queues.{Placed, IsNames};

    ghost Value = { List Placed };

    ghost view = { λ q. q.queues.entries };

    ghost invariant = { λ q. IsNames q.queues.entries (get_by_text q.places) };
}

impl Queues {
    pub fn new(alloc: Global, seed: RandomState) -> Queues
        ensures { result ≡ [] }
    {
        Queues {
            queues: NumberMap::new(alloc),
            places: IndexMap::with_hasher(alloc, seed),
            alloc,
        }
    }

    /// The queues with their places, in the order in which their names came into use.
    pub fn rows(&self, alloc: Global) -> Result<Rows<'_, NameQueue>, Memory>
        ensures { IfOk result (λ rows. rows ≡ self.now) }
    {
        Ok(self.queues.rows(alloc)?)
    }

    /// The place of a name's queue, if the name is in use.
    pub fn place(&self, name: &str) -> Option<u64>
        ensures place { result ≡ place_of name.now self.now }
        ensures are { AreQueues self.now }
    {
        Some(*self.places.get(name)?)
    }

    /// A name's queue, if the name is in use.
    pub fn get(&self, name: &str) -> Option<&NameQueue>
        ensures { option_copied result ≡ queue_of name.now self.now }
    {
        self.queues.get(self.place(name)?)
    }

    /// A request comes to the end of its name's queue, whose place is the answer. A name that is out of use comes into
    /// use, behind all others.
    pub fn push(&mut self, name: &str, number: u64, mode: Mode) -> Result<u64, Memory>
        requires places { AllByRecursion (λ e. e.0 < number) self.old }
        requires below { AllByRecursion (λ e. IsBelow number e.1) self.old }
        ensures place { IfOk result (λ place. place_of name.now self.new ≡ Some place) }
        ensures with_joined { OnOk result (self.new ≡ with_joined name.now number mode self.old) }
        ensures err { OnErr result (self.new ≡ self.old) }
        ensures are { AreQueues self.new }
    {
        if let Some(place) = self.place(name) {
            push_at(&mut self.queues, place, number, mode)?;
            return Ok(place);
        }
        self.add(name, number, mode)?;
        Ok(number)
    }

    /// A name comes into use, behind all others.
    fn add(&mut self, name: &str, number: u64, mode: Mode) -> Result<(), Memory>
        requires places { AllByRecursion (λ e. e.0 < number) self.old }
        requires fresh { place_of name.now self.old ≡ None }
        ensures added { OnOk result (self.new ≡ self.old ++ (
          number,
          record { name = name.now; waits = (number, mode) ∷ []; holders = [] },
        ) ∷ []) }
        ensures are { OnOk result (AreQueues self.new) }
        ensures err { OnErr result (self.new ≡ self.old) }
    {
        let Ok(named) = Name::of(self.alloc, name) else {
            return Err(Memory);
        };
        let mut queue = NameQueue::new(self.alloc, named);
        queue.push(number, mode)?;
        let key = String::from_str(self.alloc, name)?;
        self.queues.insert(number, queue)?;
        let Ok(_) = self.places.insert(key, number) else {
            self.queues.remove(number);
            return Err(Memory);
        };
        Ok(())
    }

    /// The request or the lock of this number leaves the queue at a place.
    pub fn remove(&mut self, place: u64, number: u64)
        ensures queues { self.new ≡ with_updated place (without number) self.old }
        ensures are { AreQueues self.new }
    {
        let Some(queue) = self.queues.get_mut(place) else {
            return;
        };
        queue.remove(number);
    }

    /// A request that waits in the queue at a place takes the name, which nobody holds.
    pub fn seize(&mut self, place: u64, number: u64)
        requires { IfSome (at_place place self.old) (λ w. w.holders ≡ []) }
        ensures queues { self.new ≡ with_updated place (after_seize number) self.old }
        ensures are { AreQueues self.new }
    {
        let Some(queue) = self.queues.get_mut(place) else {
            return;
        };
        queue.remove(number);
        queue.seize(number);
    }

    /// The first that waits in the queue at a place holds the name, if it may. Its number is the answer.
    pub fn grant(&mut self, place: u64) -> Option<u64>
        ensures number { result ≡ grant_at (at_place place self.old) }
        ensures granted { IfSome result (λ number. self.new ≡ with_updated place after_grant self.old) }
        ensures unchanged { IfNone result (self.new ≡ self.old) }
        ensures are { AreQueues self.new }
    {
        let Some(queue) = self.queues.get_mut(place) else {
            return None;
        };
        queue.grant_first()
    }

    /// The name of the queue at a place goes out of use, if neither a lock nor a request has it.
    pub fn retire(&mut self, place: u64)
        ensures queues { self.new ≡ without_idle place self.old }
        ensures are { AreQueues self.new }
    {
        if self.is_busy_at(place) {
            return;
        }
        let Some(queue) = self.queues.remove(place) else {
            return;
        };
        self.places.swap_remove(queue.name().as_str());
    }

    /// Whether a lock or a request has the name of the queue at a place, if there is one.
    fn is_busy_at(&self, place: u64) -> bool
        ensures { IfSome (at_place place self.now) (λ w. result ≡ is_busy w) }
    {
        match self.queues.get(place) {
            Some(queue) => queue.is_busy(),
            None => false,
        }
    }
}

/// A request comes to the end of the queue at a place.
fn push_at(
    queues: &mut NumberMap<NameQueue>,
    place: u64,
    number: u64,
    mode: Mode,
) -> Result<(), Memory>
    requires { AllByRecursion (λ e. IsBelow number e.1) queues.old.entries }
    ensures ok { OnOk result (queues.new.entries ≡ with_updated place (λ w. with_one_more w number mode)
        queues.old.entries) }
    ensures err { OnErr result (queues.new.entries ≡ queues.old.entries) }
{
    match queues.get_mut(place) {
        Some(queue) => queue.push(number, mode),
        None => Ok(()),
    }
}
