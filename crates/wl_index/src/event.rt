//! What an event does.
ghost use Rattle.std.specs.Prelude.{◌≡◌, ℕ, Bool, ◌+◌, ◌-◌, ◌≤◌, ◌<◌, [], ◌∷◌, ◌++◌, OnOk, IfSome, IfNone};
ghost use Rattle.std.specs.List.{list_any};
ghost use Rattle.std.specs.List.Sorted.{IsSorted};
ghost use Rattle.std.specs.Ordering.{nat_cmp};
ghost use Rattle.wl_index.specs.inner.Event.{Happened};

use std::alloc::Global;
use std::marker::Model;
use wl_types::{Change, Memory, Phase};

/// The changes of an event, and the places of the queues that it touched, which are still to be processed. `room` is
/// how many more can be noted without memory.
#[derive(Drop)]
pub(crate) struct Event {
    changes: Vec<Change>,
    // The last is processed first.
    touched: Vec<u64>,
    room: usize,
}

impl Model for Event {
    ghost use Rattle.std.specs.Prelude.{vec_len, vec_capacity, ◌+◌, ◌≤◌, reverse};
    ghost use Rattle.wl_index.specs.inner.Event.{Happened};

    ghost Value = { Happened };

    ghost view = { λ e. record { changes = e.changes.items; touched = reverse e.touched.items; room = e.room } };

    ghost invariant = { λ e. (vec_len e.changes + e.room ≤ vec_capacity e.changes)
        × (vec_len e.touched + e.room ≤ vec_capacity e.touched) };
}

impl Event {
    pub fn new(alloc: Global) -> Event
        ensures { result ≡ record { changes = []; touched = []; room = 0 } }
    {
        Event {
            changes: Vec::new(alloc),
            touched: Vec::new(alloc),
            room: 0,
        }
    }

    pub fn changes(&self) -> &[Change]
        ensures { result.now ≡ self.now.changes }
    {
        self.changes.as_slice()
    }

    /// The next event begins: the changes of the last are forgotten.
    pub fn begin(&mut self)
        ensures changes { self.new.changes ≡ [] }
        ensures touched { self.new.touched ≡ self.old.touched }
        ensures room { self.old.room ≤ self.new.room }
    {
        self.changes.clear();
        self.room = self
            .changes
            .capacity()
            .min(self.touched.capacity() - self.touched.len());
    }

    /// Makes room for so many notes.
    pub fn reserve(&mut self, room: usize) -> Result<(), Memory>
        ensures ok { OnOk result (room ≤ self.new.room) }
        ensures changes { self.new.changes ≡ self.old.changes }
        ensures touched { self.new.touched ≡ self.old.touched }
        ensures room { self.old.room ≤ self.new.room }
    {
        if room <= self.room {
            return Ok(());
        }
        self.changes.reserve(room)?;
        self.touched.reserve(room)?;
        self.room = room;
        Ok(())
    }

    /// A queue was touched.
    pub fn touch(&mut self, place: u64)
        requires { 1 ≤ self.old.room }
        ensures { self.new ≡ record self.old { touched = place ∷ self.old.touched; room = self.old.room - 1 } }
    {
        self.room -= 1;
        self.touched.push_reserved(place);
    }

    /// A request's or a lock's phase changed.
    pub fn note(&mut self, id: u64, phase: Phase)
        requires { 1 ≤ self.old.room }
        ensures { self.new ≡ record self.old {
          changes = self.old.changes ++ record { id = id; phase = phase } ∷ [];
          room = self.old.room - 1;
        } }
    {
        self.room -= 1;
        self.changes.push_reserved(Change { id, phase });
    }

    /// A phase changed, and that touched a queue.
    pub fn note_at(&mut self, place: u64, id: u64, phase: Phase)
        requires { 1 ≤ self.old.room }
        ensures { self.new ≡ record {
          changes = self.old.changes ++ record { id = id; phase = phase } ∷ [];
          touched = place ∷ self.old.touched;
          room = self.old.room - 1;
        } }
    {
        self.room -= 1;
        self.touched.push_reserved(place);
        self.changes.push_reserved(Change { id, phase });
    }

    /// Puts the touched queues in the order in which their names came into use.
    pub fn sort(&mut self)
        ensures same { (test : ℕ → Bool) → list_any test self.new.touched ≡ list_any test self.old.touched }
        ensures sorted { IsSorted nat_cmp self.new.touched }
        ensures changes { self.new.changes ≡ self.old.changes }
        ensures room { self.new.room ≡ self.old.room }
    {
        self.touched.sort_unstable();
        self.touched.reverse();
    }

    /// The next touched queue is taken, to be processed.
    pub fn next_touched(&mut self) -> Option<u64>
        ensures some { IfSome result (λ place. self.old ≡ record self.new { touched = place ∷ self.new.touched }) }
        ensures none { IfNone result ((self.old.touched ≡ []) × (self.new ≡ self.old)) }
    {
        self.touched.pop()
    }
}
