//! Where the values stand: a few together, or all where they are found by hash.
ghost use Rattle.std.specs.Prelude.{◌≡◌, ◌+◌, ◌<◌, ◌^◌, ◌==◌, ◌++◌, [], length, IfOk, IfNone, OnOk, OnErr, Some, None};
ghost use Rattle.std.specs.Borrow.{sem};
ghost use Rattle.std.specs.List.{IsDistinct};
ghost use Rattle.std.specs.Map.{keys_of, lookup};
ghost use Rattle.std.specs.Option.{option_copied, option_copied_mut};
ghost use Rattle.wl_number_map.specs.inner.Lends.{lends_store};
ghost use Rattle.wl_number_map.specs.inner.Entries.{IsPut};
ghost use Rattle.wl_number_map.specs.inner.NumberMap.{shown};

use crate::few::Few;
use indexmap::IndexMap;
use std::alloc::{AllocError, Global};
use std::marker::Model;
use std::mem;

/// Values with distinct numbers, in any order.
#[derive(Drop)]
pub(crate) struct Store<V> {
    held: Held<V>,
}

/// A store that came to many values keeps to the hash map when it shrinks, so that no value moves twice.
#[derive(Drop)]
enum Held<V> {
    Few(Few<V>),
    Many(Box<IndexMap<u64, V>>),
}

impl<V> Model for Store<V> {
    ghost use Rattle.std.specs.Prelude.{ℕ, List};
    ghost use Rattle.wl_number_map.specs.inner.Entries.{held_entries};

    ghost Value = { List (ℕ × V) };

    ghost view = { λ s. held_entries s.held };
}

impl<V> Store<V> {
    pub(crate) fn new(alloc: Global) -> Store<V>
        ensures { result ≡ [] }
    {
        Store {
            held: Held::Few(Few::new(alloc)),
        }
    }

    pub(crate) fn len(&self) -> usize
        ensures len { result ≡ length self.now }
        ensures small { result + 4 < 2 ^ 64 }
        ensures distinct { IsDistinct (λ a b. a == b) (keys_of self.now) }
    {
        match &self.held {
            Held::Few(few) => few.len(),
            Held::Many(map) => map.len(),
        }
    }

    pub(crate) fn get(&self, number: u64) -> Option<&V>
        ensures { option_copied result ≡ lookup (λ k. number == k) self.now }
    {
        match &self.held {
            Held::Few(few) => few.get(number),
            Held::Many(map) => map.get(&number),
        }
    }

    pub(crate) fn get_mut(&mut self, number: u64) -> Option<&mut V>
        ensures* writes_back { sem 𝓛 (lends_store V.row self.entry number result) }
        ensures value { option_copied_mut result ≡ lookup (λ k. number == k) self.old }
    {
        match &mut self.held {
            Held::Few(few) => few.get_mut(number),
            Held::Many(map) => map.get_mut(&number),
        }
    }

    /// Puts a value at a number. The value that was there is the answer.
    pub(crate) fn insert(
        &mut self,
        alloc: Global,
        number: u64,
        value: V,
    ) -> Result<Option<V>, AllocError>
    where
        V: Drop,
        ensures old { IfOk result (λ old. old ≡ lookup (λ k. number == k) self.old) }
        ensures updates { OnOk result (IsPut number (Some value) self.old self.new) }
        ensures absent { OnErr result (lookup (λ k. number == k) self.old ≡ None) }
        ensures err { OnErr result (self.new ≡ self.old) }
    {
        let few = match &mut self.held {
            Held::Few(few) => few,
            Held::Many(map) => return put(map, number, value),
        };
        if let Some(old) = few.get_mut(number) {
            return Ok(Some(mem::replace(old, value)));
        }
        if few.has_room() {
            few.push(number, value)?;
            return Ok(None);
        }
        let map = few.spread(alloc, number, value)?;
        self.held = Held::Many(map);
        Ok(None)
    }

    /// Takes the value at a number out.
    pub(crate) fn remove(&mut self, number: u64) -> Option<V>
        ensures value { result ≡ lookup (λ k. number == k) self.old }
        ensures updates { IsPut number None self.old self.new }
        ensures unchanged { IfNone result (self.new ≡ self.old) }
    {
        match &mut self.held {
            Held::Few(few) => few.remove(number),
            Held::Many(map) => map.swap_remove(&number),
        }
    }

    /// The values with their numbers.
    pub(crate) fn list(&self, alloc: Global) -> Result<Vec<(u64, &V)>, AllocError>
        ensures rows { IfOk result (λ rows. shown rows.items ≡ self.now) }
        ensures distinct { IfOk result (λ rows. IsDistinct (λ a b. a == b) (keys_of self.now)) }
    {
        let mut rows = Vec::with_capacity(alloc, self.len())?;
        match &self.held {
            Held::Few(few) => few.list(&mut rows)?,
            Held::Many(map) => list(map, &mut rows)?,
        }
        Ok(rows)
    }

    pub(crate) fn clear(&mut self, alloc: Global)
    where
        V: Drop,
        ensures { self.new ≡ [] }
    {
        self.held = Held::Few(Few::new(alloc));
    }
}

/// Puts a value at a number of a hash map.
fn put<V: Drop>(map: &mut IndexMap<u64, V>, number: u64, value: V) -> Result<Option<V>, AllocError>
    ensures old { IfOk result (λ old. old ≡ lookup (λ k. number == k) map.old.entries) }
    ensures updates { OnOk result (IsPut number (Some value) map.old.entries map.new.entries) }
    ensures absent { OnErr result (lookup (λ k. number == k) map.old.entries ≡ None) }
    ensures err { OnErr result (map.new.entries ≡ map.old.entries) }
{
    match map.insert(number, value) {
        Ok(old) => Ok(old),
        Err(_) => Err(AllocError),
    }
}

/// Each value of a hash map comes to a list, with its number.
fn list<'a, V>(map: &'a IndexMap<u64, V>, rows: &mut Vec<(u64, &'a V)>) -> Result<(), AllocError>
    ensures { OnOk result (shown rows.new.items ≡ shown rows.old.items ++ map.now.entries) }
{
    for (number, value) in map.iter() {
        rows.push((*number, value))?;
    }
    Ok(())
}
