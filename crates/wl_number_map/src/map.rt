//! A map by number.
ghost use Rattle.std.specs.Prelude.{◌≡◌, ◌+◌, ◌<◌, ◌^◌, [], length, is_some, IfOk, IfNone, OnOk, OnErr, Some, None};
ghost use Rattle.std.specs.Borrow.{sem};
ghost use Rattle.std.specs.BTreeMap.{insert_entry, is_at};
ghost use Rattle.std.specs.Map.{remove_entry};
ghost use Rattle.std.specs.Option.{option_copied, option_copied_mut};
ghost use Rattle.std.specs.Ordering.{nat_cmp};
ghost use Rattle.wl_number_map.specs.Lends.{lends_value};
ghost use Rattle.wl_number_map.specs.NumberMap.{found, IsOrdered, IsWritten};

use crate::rows::Rows;
use crate::store::Store;
use std::alloc::{AllocError, Global};
use std::marker::Model;

/// Values by number: a call takes the same few steps whatever number of values there is. Up to four stand together, and
/// once there are more, all are found by hash. The map keeps no order; contracts see its entries in the order of their
/// numbers, so that it can stand where an ordered map would. The hash is a fixed one, so the numbers should be of the
/// program's own making.
pub struct NumberMap<V> {
    store: Store<V>,
    alloc: Global,
}

impl<V> Model for NumberMap<V> {
    ghost use Rattle.wl_number_map.specs.NumberMap.{NumberMap as Entries};
    ghost use Rattle.wl_number_map.specs.inner.NumberMap.{number_map_code, in_order};

    ghost Value = { Entries V };

    ghost coded = { number_map_code V.code };

    ghost view = { λ m. record { entries = in_order m.store } };
}

// Written out, since a derived one is read in place wherever a map is dropped.
impl<V: Drop> Drop for NumberMap<V> {
    fn drop(self) {
        let NumberMap { store, alloc: _ } = self;
        drop(store);
    }
}

impl<V> NumberMap<V> {
    pub fn new(alloc: Global) -> NumberMap<V>
        ensures empty { result.entries ≡ [] }
        ensures ordered { IsOrdered result }
    {
        NumberMap {
            store: Store::new(alloc),
            alloc,
        }
    }

    /// The value at a number.
    pub fn get(&self, number: u64) -> Option<&V>
        ensures value { option_copied result ≡ found number self.now }
    {
        self.store.get(number)
    }

    /// How many numbers have a value.
    pub fn len(&self) -> usize
        ensures len { result ≡ length self.now.entries }
        ensures small { result + 4 < 2 ^ 64 }
        ensures ordered { IsOrdered self.now }
    {
        self.store.len()
    }

    pub fn contains(&self, number: u64) -> bool
        ensures { result ≡ is_some (found number self.now) }
    {
        self.get(number).is_some()
    }

    /// The value at a number, to be changed.
    pub fn get_mut(&mut self, number: u64) -> Option<&mut V>
        ensures* writes_back { sem 𝓛 (lends_value V.row self.entry number result) }
        ensures value { option_copied_mut result ≡ found number self.old }
        ensures was_ordered { IsOrdered self.old }
    {
        self.store.get_mut(number)
    }

    /// Puts a value at a number. The value that was there is the answer. Only a new number takes memory.
    pub fn insert(&mut self, number: u64, value: V) -> Result<Option<V>, AllocError>
    where
        V: Drop,
        ensures old { IfOk result (λ old. old ≡ found number self.old) }
        ensures entries { OnOk result (self.new.entries ≡ insert_entry nat_cmp self.old.entries number value) }
        ensures updates { OnOk result (IsWritten number (Some value) self.old self.new) }
        ensures absent { OnErr result (found number self.old ≡ None) }
        ensures err { OnErr result (self.new ≡ self.old) }
        ensures ordered { IsOrdered self.new }
        ensures was_ordered { IsOrdered self.old }
    {
        self.store.insert(self.alloc, number, value)
    }

    /// Takes the value at a number out.
    pub fn remove(&mut self, number: u64) -> Option<V>
        ensures value { result ≡ found number self.old }
        ensures entries { self.new.entries ≡ remove_entry (is_at (nat_cmp number)) self.old.entries }
        ensures updates { IsWritten number None self.old self.new }
        ensures unchanged { IfNone result (self.new ≡ self.old) }
        ensures ordered { IsOrdered self.new }
        ensures was_ordered { IsOrdered self.old }
    {
        self.store.remove(number)
    }

    /// The values with their numbers, in the order of the numbers. It costs a sort of the numbers, and memory for them.
    pub fn rows(&self, alloc: Global) -> Result<Rows<'_, V>, AllocError>
        ensures { IfOk result (λ rows. rows ≡ self.now.entries) }
    {
        Rows::of(alloc, &self.store)
    }

    /// No number has a value any more.
    pub fn clear(&mut self)
    where
        V: Drop,
        ensures empty { self.new.entries ≡ [] }
        ensures ordered { IsOrdered self.new }
    {
        self.store.clear(self.alloc);
    }
}
