//! The live requests by number. A lock keeps its place in the order of grants as a grant sequence, so a grant writes in
//! place.
ghost use Rattle.std.specs.Prelude.{◌≡◌, ◌+◌, ◌≤◌, ◌<◌, ◌^◌, ◌==◌, true, [], ◌∷◌, ◌++◌, map, filter, not, length};
ghost use Rattle.std.specs.Prelude.{vec_len, vec_capacity, is_some, IfOk, OnOk, OnErr, Some};
ghost use Rattle.std.specs.List.{list_any, AllByRecursion};
ghost use Rattle.std.specs.List.Sorted.{IsStrictlySortedBy};
ghost use Rattle.std.specs.Map.{keys_of, lookup};
ghost use Rattle.std.specs.BTreeMap.{is_at};
ghost use Rattle.std.specs.Option.{option_copied, option_to_list};
ghost use Rattle.std.specs.Ordering.{nat_cmp};
ghost use Rattle.wl_machine.specs.declared.rows.HeldRow.{HeldRow};
ghost use Rattle.wl_machine.specs.declared.rows.PendingRow.{PendingRow};
ghost use Rattle.wl_machine.specs.Grants.{granted_lock};
ghost use Rattle.wl_machine.specs.Step.{is_lock_of, is_untaken, with_taken};
ghost use Rattle.wl_index.specs.declared.request.Request.{Request};
ghost use Rattle.wl_index.specs.inner.Rows.{Apart, IsLock, held_of, pending_of, tags_of, other, grant_seq_of, holding};
ghost use Rattle.wl_index.specs.inner.Ends.{IsOwners, ends_entry, place_if};
ghost use Rattle.wl_index.specs.inner.Order.{place_of};
ghost use Rattle.wl_index.specs.inner.GrantOrder.{Distinct};

mod untaken;

use crate::order;
use crate::request::{
    Owner, Place, Request, Stage, Standing, ending_place, is_held_by, mark_taken,
};
use std::alloc::Global;
use std::marker::Model;
use wl_number_map::{NumberMap, Rows};
use wl_types::Memory;

/// The live requests by number, the next grant sequence and the next number.
#[derive(Drop)]
pub struct Requests {
    requests: NumberMap<Request>,
    grant_seq: u64,
    next: u64,
}

impl Model for Requests {
    ghost use Rattle.wl_index.specs.inner.Rows.{Rows, IsTable};

    ghost Value = { Rows };

    ghost view = { λ t. record { entries = t.requests.entries; next = t.next } };

    ghost invariant = { λ t. IsTable t.requests.entries t.grant_seq t.next };
}

impl Requests {
    pub fn new(alloc: Global, next: u64) -> Requests
        requires low { 1 ≤ next }
        requires high { next ≤ 9007199254740992 }
        ensures { result ≡ record { entries = []; next = next } }
    {
        Requests {
            requests: NumberMap::new(alloc),
            grant_seq: 1,
            next,
        }
    }

    /// The number that is given next, above all that are live.
    pub fn next(&self) -> u64
        ensures next { result ≡ self.now.next }
        ensures below { AllByRecursion (λ e. e.0 < self.now.next) self.now.entries }
    {
        self.next
    }

    /// How many requests are live.
    pub fn len(&self) -> usize
        ensures entries { result ≡ length self.now.entries }
        ensures small { result + 4 < 2 ^ 64 }
        ensures ordered { IsStrictlySortedBy nat_cmp (keys_of self.now.entries) }
        ensures live { result ≡ length (held_of self.now.entries) + length (pending_of self.now.entries) }
    {
        self.requests.len()
    }

    /// The request of this number.
    pub fn get(&self, number: u64) -> Option<&Request>
        ensures { option_copied result ≡ lookup (is_at (nat_cmp number)) self.now.entries }
    {
        self.requests.get(number)
    }

    /// The live requests by number.
    pub fn rows(&self, alloc: Global) -> Result<Rows<'_, Request>, Memory>
        ensures { IfOk result (λ rows. rows ≡ self.now.entries) }
    {
        Ok(self.requests.rows(alloc)?)
    }

    /// The numbers of the locks, in the order of their grants.
    pub fn locks_in_order(&self, alloc: Global) -> Result<Vec<u64>, Memory>
        ensures numbers { IfOk result (λ numbers. numbers.items
            ≡ map (λ (lock : HeldRow). lock.number) (held_of self.now.entries)) }
        ensures ordered { IsStrictlySortedBy nat_cmp (keys_of self.now.entries) }
    {
        let mut places = order::places(&self.requests, alloc)?;
        order::sort(&mut places);
        order::numbers(&places, alloc)
    }

    /// The place of the request of a number, if it stands so and ends with its owner.
    pub(crate) fn ending_place(
        &self,
        number: u64,
        owner: Owner,
        standing: Standing,
    ) -> Option<Place>
        ensures { result ≡ place_if (ends_entry owner standing) number
            (lookup (is_at (nat_cmp number)) self.now.entries) }
    {
        ending_place(number, self.requests.get(number)?, owner, standing)
    }

    /// Puts the places of what ends, by number, into room that is there. It looks at what the owner's numbers find.
    pub(crate) fn gather(
        &self,
        numbers: &[u64],
        owner: Owner,
        standing: Standing,
        places: &mut Vec<Place>,
    )
        requires finds { IsStrictlySortedBy nat_cmp numbers.now × IsOwners owner self.now.entries numbers.now }
        requires none { places.old.items ≡ [] }
        requires room { length self.now.entries ≤ vec_capacity places.old }
        ensures items { places.new.items ≡ map place_of (filter (ends_entry owner standing) self.now.entries) }
        ensures ordered { IsStrictlySortedBy nat_cmp (keys_of self.now.entries) }
        ensures distinct { Distinct grant_seq_of (filter holding self.now.entries) }
        ensures capacity { vec_capacity places.old ≤ vec_capacity places.new }
    {
        let _ = &self.requests;
        for number in numbers {
            push_some(places, self.ending_place(*number, owner, standing));
        }
    }

    /// Whether the request of a number is live.
    pub fn is_live(&self, number: u64) -> bool
        ensures { result ≡ is_some (lookup (is_at (nat_cmp number)) self.now.entries) }
    {
        self.requests.contains(number)
    }

    /// A request that waits, after all others.
    pub fn push(&mut self, request: Request) -> Result<u64, Memory>
        requires low { self.old.next < 9007199254740992 }
        requires waits { request.stage ≡ Stage.Pending }
        ensures number { IfOk result (λ n. n ≡ self.old.next) }
        ensures below { AllByRecursion (λ e. e.0 < self.old.next) self.old.entries }
        ensures entries { OnOk result (self.new.entries ≡ self.old.entries ++ (self.old.next, request) ∷ []) }
        ensures ordered { OnOk result (IsStrictlySortedBy nat_cmp (keys_of self.new.entries)) }
        ensures next { OnOk result (self.new.next ≡ self.old.next + 1) }
        ensures err { OnErr result (self.new ≡ self.old) }
    {
        let number = self.next;
        self.requests.insert(number, request)?;
        self.next = number + 1;
        Ok(number)
    }

    /// Uses up the next number, for a request that is unavailable.
    pub fn skip(&mut self) -> u64
        requires { self.old.next < 9007199254740992 }
        ensures number { result ≡ self.old.next }
        ensures next { self.new ≡ record self.old { next = self.old.next + 1 } }
    {
        let number = self.next;
        self.next = number + 1;
        number
    }

    /// Takes the last request back, with its number.
    pub fn retract(&mut self, number: u64)
        requires last { self.old.next ≡ number + 1 }
        requires waits { (r : Request) × (lookup (is_at (nat_cmp number)) self.old.entries ≡ Some r)
            × (r.stage ≡ Stage.Pending) }
        ensures { self.new ≡ record { entries = filter (other number) self.old.entries; next = number } }
    {
        self.requests.remove(number);
        self.next = number;
    }

    /// The request or the lock of this number ends, and is handed out.
    pub fn remove(&mut self, number: u64) -> Option<Request>
        ensures value { result ≡ lookup (is_at (nat_cmp number)) self.old.entries }
        ensures entries { self.new.entries ≡ filter (other number) self.old.entries }
        ensures ordered { IsStrictlySortedBy nat_cmp (keys_of self.old.entries) }
        ensures still_ordered { IsStrictlySortedBy nat_cmp (keys_of self.new.entries) }
        ensures next { self.new.next ≡ self.old.next }
    {
        self.requests.remove(number)
    }

    /// Whether an agent has the lock of this number.
    pub fn has_lock(&self, agent: u64, number: u64) -> bool
        ensures found { result ≡ list_any (is_lock_of agent number) (held_of self.now.entries) }
        ensures lock { result ≡ true → (r : Request) × IsLock agent number self.now.entries r }
    {
        match self.requests.get(number) {
            Some(request) => is_held_by(request, agent),
            None => false,
        }
    }

    /// Makes a request that waits the last lock.
    pub fn grant(&mut self, number: u64)
        requires { list_any (λ (request : PendingRow). request.number == number) (pending_of self.old.entries) ≡ true }
        ensures apart { Apart (pending_of self.old.entries) }
        ensures held { held_of self.new.entries ≡ held_of self.old.entries
            ++ map granted_lock (filter (λ (request : PendingRow). request.number == number)
            (pending_of self.old.entries)) }
        ensures pending { pending_of self.new.entries ≡ filter
            (λ (request : PendingRow). not (request.number == number)) (pending_of self.old.entries) }
        ensures tags { tags_of self.new.entries ≡ tags_of self.old.entries }
        ensures next { self.new.next ≡ self.old.next }
    {
        let request = self.requests.get_mut(number).unwrap();
        request.stage = Stage::Held(self.grant_seq, false);
        self.grant_seq += 1;
    }

    /// Marks an untaken lock as taken. False: there is none.
    pub fn take(&mut self, number: u64) -> bool
        ensures found { result ≡ list_any (is_untaken number) (held_of self.old.entries) }
        ensures held { held_of self.new.entries ≡ map (with_taken number) (held_of self.old.entries) }
        ensures pending { pending_of self.new.entries ≡ pending_of self.old.entries }
        ensures tags { tags_of self.new.entries ≡ tags_of self.old.entries }
        ensures next { self.new.next ≡ self.old.next }
    {
        if let Some(request) = self.requests.get_mut(number) {
            return mark_taken(request);
        }
        false
    }
}

/// Puts a place, if there is one, into room that is there.
fn push_some(places: &mut Vec<Place>, place: Option<Place>)
    requires { vec_len places.old + length (option_to_list place) ≤ vec_capacity places.old }
    ensures items { places.new.items ≡ places.old.items ++ option_to_list place }
    ensures capacity { vec_capacity places.old ≤ vec_capacity places.new }
{
    if let Some(place) = place {
        places.push_reserved(place);
    }
}
