//! The locks and the requests of all names, and what an event does to them.
ghost use Rattle.std.specs.Prelude.{◌≡◌, ℕ, List, ◌+◌, ◌*◌, ◌≤◌, ◌<◌, ◌==◌, ◌&&◌, true, [], ◌∷◌, ◌++◌, map, filter};
ghost use Rattle.std.specs.Prelude.{not, length, slice_get, IsSome, IfOk, OnOk, OnErr};
ghost use Rattle.std.specs.List.{list_any, AllByRecursion};
ghost use Rattle.std.specs.List.Sorted.{IsSorted, IsStrictlySortedBy};
ghost use Rattle.std.specs.Map.{keys_of, lookup};
ghost use Rattle.std.specs.BTreeMap.{is_at};
ghost use Rattle.std.specs.Ordering.{nat_cmp};
ghost use Rattle.wl_types.specs.declared.phases.Phase.TheVariants.{Stolen, Granted, Unavailable};
ghost use Rattle.wl_machine.specs.declared.rows.PendingRow.{PendingRow};
ghost use Rattle.wl_machine.specs.Grants.{Lists, granted_lock, grants, in_use, is_empty, lists_of, locks, queue};
ghost use Rattle.wl_machine.specs.Grants.{process_queues};
ghost use Rattle.wl_machine.specs.Step.{is_lock_of, is_untaken, lock_ends, with_name, with_taken};
ghost use Rattle.wl_index.specs.inner.Rows.{IsLock, held_of, pending_of, tags_of, other};
ghost use Rattle.wl_index.specs.inner.NameQueue.{Matches};
ghost use Rattle.wl_index.specs.inner.Queues.{names_of};
ghost use Rattle.wl_index.specs.inner.Locks.{IsQuiet, Stands, Underway, WaitsAlone, request_for, no_lock_on};

use crate::event::Event;
use crate::queues::Queues;
use crate::request::{Request, Stage};
use crate::requests::Requests;
use std::alloc::Global;
use std::hash::RandomState;
use std::marker::Model;
use wl_types::{Ask, Change, Memory, Mode, Name, Phase};

/// The requests by number, the queues by name, and the event that is going on. Each request that is live has room for
/// its changes in the event.
#[derive(Drop)]
pub(crate) struct Locks {
    requests: Requests,
    queues: Queues,
    event: Event,
    alloc: Global,
}

impl Model for Locks {
    ghost use Rattle.wl_index.specs.inner.Locks.{Board, board, AreLocks};

    ghost Value = { Board };

    ghost view = { λ l. board l.requests l.queues l.event };

    ghost invariant = { λ l. AreLocks l.requests l.queues l.event };
}

impl Locks {
    pub fn new(alloc: Global, seed: RandomState, next: u64) -> Locks
        requires low { 1 ≤ next }
        requires high { next ≤ 9007199254740992 }
        ensures { result ≡ record { entries = []; next = next; names = []; changes = [] } }
    {
        Locks {
            requests: Requests::new(alloc, next),
            queues: Queues::new(alloc, seed),
            event: Event::new(alloc),
            alloc,
        }
    }

    /// The live requests.
    pub fn requests(&self) -> &Requests
        ensures entries { result.now ≡ record { entries = self.now.entries; next = self.now.next } }
        ensures ordered { IsStrictlySortedBy nat_cmp (keys_of self.now.entries) }
    {
        &self.requests
    }

    /// The queues.
    pub fn queues(&self) -> &Queues
        ensures names { names_of result.now ≡ self.now.names }
        ensures matched { AllByRecursion (λ e. Matches e.1 (held_of self.now.entries) (pending_of self.now.entries))
            result.now }
        ensures ordered { IsStrictlySortedBy nat_cmp (keys_of self.now.entries) }
    {
        &self.queues
    }

    /// What the event has changed.
    pub fn changes(&self) -> &[Change]
        ensures { result.now ≡ self.now.changes }
    {
        self.event.changes()
    }

    /// The next event begins.
    pub fn begin(&mut self)
        ensures { self.new ≡ record self.old { changes = [] } }
    {
        self.event.begin();
    }

    /// Whether a request of this name and mode would be granted at once.
    pub fn is_available(&self, name: &str, mode: Mode) -> bool
        ensures { (row : PendingRow) → row.name ≡ name.now → row.mode ≡ mode
            → result ≡ (is_empty (queue row.name (pending_of self.now.entries))
            && not (is_empty (grants (locks row.name (held_of self.now.entries)) (row ∷ [])))) }
    {
        match self.queues.get(name) {
            Some(queue) => queue.is_available(mode),
            None => true,
        }
    }

    /// A request that is unavailable uses up the next number.
    pub fn refuse(&mut self) -> Result<u64, Memory>
        requires few { length self.old.entries < 65536 }
        requires low { self.old.next < 9007199254740992 }
        ensures number { IfOk result (λ n. n ≡ self.old.next) }
        ensures refused { OnOk result (self.new ≡ record self.old {
          next = self.old.next + 1;
          changes = self.old.changes ++ record { id = self.old.next; phase = Unavailable } ∷ [];
        }) }
        ensures err { OnErr result (self.new ≡ self.old) }
    {
        let live = self.requests.len();
        self.event.reserve(2 * live + 3)?;
        let number = self.requests.skip();
        self.event.note(number, Phase::Unavailable);
        Ok(number)
    }

    /// A request comes to the end of its name's queue, with the next number. All that can fail comes first.
    pub fn enqueue(&mut self, agent: u64, ask: &Ask) -> Result<u64, Memory>
        requires few { length self.old.entries < 65536 }
        requires low { self.old.next < 9007199254740992 }
        ensures number { IfOk result (λ n. n ≡ self.old.next) }
        ensures enqueued { OnOk result (self.new ≡ record self.old {
          entries = self.old.entries
              ++ (self.old.next, request_for agent ask.now) ∷ [];
          next = self.old.next + 1;
          names = with_name ask.now.name self.old.names;
        }) }
        ensures below { OnOk result (AllByRecursion (λ e. e.0 < self.old.next) self.old.entries) }
        ensures err { OnErr result (self.new ≡ self.old) }
    {
        let Ok(name) = Name::of(self.alloc, ask.name.as_str()) else {
            return Err(Memory);
        };
        let live = self.requests.len();
        self.event.reserve(2 * live + 3)?;
        let request = Request {
            agent,
            name,
            mode: ask.mode,
            signal: ask.signal,
            stage: Stage::Pending,
        };
        let number = self.requests.push(request)?;
        let Ok(place) = self.queues.push(ask.name.as_str(), number, ask.mode) else {
            self.requests.retract(number);
            return Err(Memory);
        };
        self.event.touch(place);
        Ok(number)
    }

    /// The request or the lock of this number ends.
    pub fn end(&mut self, number: u64, phase: Phase)
        requires { IsSome (lookup (is_at (nat_cmp number)) self.old.entries) }
        ensures { self.new ≡ record self.old {
          entries = filter (other number) self.old.entries;
          changes = self.old.changes ++ record { id = number; phase = phase } ∷ [];
        } }
    {
        let request = self.requests.remove(number).unwrap();
        let place = self.queues.place(request.name.as_str()).unwrap();
        self.queues.remove(place, number);
        self.event.note_at(place, number, phase);
    }

    /// The number of the first lock of a name.
    fn first_holder(&self, name: &str) -> Option<u64>
        ensures ordered { IsStrictlySortedBy nat_cmp (keys_of self.now.entries) }
        ensures number { result ≡ slice_get (map (λ lock. lock.number) (locks name.now (held_of self.now.entries))) 0 }
    {
        self.queues.get(name)?.first_number()
    }

    /// The locks of a name end: they are stolen.
    pub fn oust(&mut self, name: &str)
        ensures { self.new ≡ record self.old {
          entries = filter (no_lock_on name.now) self.old.entries;
          changes = self.old.changes ++ lock_ends Stolen (locks name.now (held_of self.old.entries));
        } }
    {
        while let Some(number) = self.first_holder(name) {
            self.end(number, Phase::Stolen);
        }
    }

    /// An exclusive request that waits takes a name that nobody holds, before all others.
    pub fn seize(&mut self, name: &str, number: u64)
        requires gone { locks name.now (held_of self.old.entries) ≡ [] }
        requires waits { WaitsAlone number name.now (pending_of self.old.entries) }
        ensures held { held_of self.new.entries ≡ held_of self.old.entries
            ++ map granted_lock (filter (λ (request : PendingRow). request.number == number)
            (pending_of self.old.entries)) }
        ensures pending { pending_of self.new.entries ≡ filter
            (λ (request : PendingRow). not (request.number == number)) (pending_of self.old.entries) }
        ensures changes { self.new.changes ≡ self.old.changes ++ record { id = number; phase = Granted } ∷ [] }
        ensures next { self.new.next ≡ self.old.next }
        ensures names { self.new.names ≡ self.old.names }
        ensures tags { tags_of self.new.entries ≡ tags_of self.old.entries }
    {
        let place = self.queues.place(name).unwrap();
        self.queues.seize(place, number);
        self.requests.grant(number);
        self.event.note_at(place, number, Phase::Granted);
    }

    /// Processes the queues of the touched names, in the order in which the names came into use. A name out of use
    /// leaves.
    pub fn process(&mut self)
        ensures processed { lists_of (held_of self.new.entries) (pending_of self.new.entries) self.new.changes
            ≡ process_queues (lists_of (held_of self.old.entries) (pending_of self.old.entries) self.old.changes)
            self.old.names }
        ensures names { self.new.names ≡ filter (in_use (held_of self.new.entries) (pending_of self.new.entries))
            self.old.names }
        ensures quiet { IsQuiet (held_of self.new.entries) (pending_of self.new.entries) }
        ensures next { self.new.next ≡ self.old.next }
        ensures tags { tags_of self.new.entries ≡ tags_of self.old.entries }
    {
        self.event.sort();
        process_all(&mut self.requests, &mut self.queues, &mut self.event);
    }

    /// Whether an agent has the lock of this number.
    pub fn has_lock(&self, agent: u64, number: u64) -> bool
        ensures found { result ≡ list_any (is_lock_of agent number) (held_of self.now.entries) }
        ensures lock { result ≡ true → (r : Request) × IsLock agent number self.now.entries r }
    {
        self.requests.has_lock(agent, number)
    }

    /// Marks an untaken lock as taken. False: there is none.
    pub fn take(&mut self, number: u64) -> bool
        ensures found { result ≡ list_any (is_untaken number) (held_of self.old.entries) }
        ensures held { held_of self.new.entries ≡ map (with_taken number) (held_of self.old.entries) }
        ensures pending { pending_of self.new.entries ≡ pending_of self.old.entries }
        ensures next { self.new.next ≡ self.old.next }
        ensures names { self.new.names ≡ self.old.names }
        ensures changes { self.new.changes ≡ self.old.changes }
        ensures tags { tags_of self.new.entries ≡ tags_of self.old.entries }
    {
        self.requests.take(number)
    }
}

/// Processes the touched queues, whose places are in order.
fn process_all(requests: &mut Requests, queues: &mut Queues, event: &mut Event)
    requires due { Stands queues.old (held_of requests.old.entries) (pending_of requests.old.entries) event.old.touched
        × IsSorted nat_cmp event.old.touched }
    requires room { length (held_of requests.old.entries) + 2 * length (pending_of requests.old.entries)
        ≤ event.old.room }
    ensures underway { (target : Lists) (stay : List (List ℕ))
        → Underway target stay queues.old (lists_of (held_of requests.old.entries) (pending_of requests.old.entries)
        event.old.changes) event.old.touched
        → Underway target stay queues.new (lists_of (held_of requests.new.entries) (pending_of requests.new.entries)
        event.new.changes) [] }
    ensures touched { event.new.touched ≡ [] }
    ensures next { requests.new.next ≡ requests.old.next }
    ensures tags { tags_of requests.new.entries ≡ tags_of requests.old.entries }
    ensures below { (n : ℕ) → AllByRecursion (λ e. e.0 < n) queues.old → AllByRecursion (λ e. e.0 < n) queues.new }
    ensures room { length (held_of requests.new.entries) + 2 * length (pending_of requests.new.entries)
        ≤ event.new.room }
{
    while let Some(place) = event.next_touched() {
        process_queue(requests, queues, event, place);
    }
}

/// Grants what the queue at the first touched place grants, and then lets a name out of use leave.
fn process_queue(requests: &mut Requests, queues: &mut Queues, event: &mut Event, place: u64)
    requires due { Stands queues.old (held_of requests.old.entries) (pending_of requests.old.entries)
        (place ∷ event.old.touched) × AllByRecursion (λ q. place ≤ q) event.old.touched }
    requires room { length (held_of requests.old.entries) + 2 * length (pending_of requests.old.entries)
        ≤ event.old.room }
    ensures underway { (target : Lists) (stay : List (List ℕ))
        → Underway target stay queues.old (lists_of (held_of requests.old.entries) (pending_of requests.old.entries)
        event.old.changes) (place ∷ event.old.touched)
        → Underway target stay queues.new (lists_of (held_of requests.new.entries) (pending_of requests.new.entries)
        event.new.changes) event.new.touched }
    ensures touched { event.new.touched ≡ event.old.touched }
    ensures next { requests.new.next ≡ requests.old.next }
    ensures tags { tags_of requests.new.entries ≡ tags_of requests.old.entries }
    ensures below { (n : ℕ) → AllByRecursion (λ e. e.0 < n) queues.old → AllByRecursion (λ e. e.0 < n) queues.new }
    ensures room { length (held_of requests.new.entries) + 2 * length (pending_of requests.new.entries)
        ≤ event.new.room }
{
    while let Some(number) = queues.grant(place) {
        requests.grant(number);
        event.note(number, Phase::Granted);
    }
    queues.retire(place);
}
