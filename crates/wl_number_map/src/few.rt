//! A few values with their numbers, found one after another.
ghost use Rattle.std.specs.Prelude.{◌≡◌, ℕ, ◌+◌, ◌<◌, ◌≤◌, ◌==◌, ◌++◌, [], length, true, IfOk, IfSome, IfNone, OnOk};
ghost use Rattle.std.specs.Prelude.{OnErr, Some, None};
ghost use Rattle.indexmap.specs.IndexMap.{spare};
ghost use Rattle.std.specs.Borrow.{sem};
ghost use Rattle.std.specs.List.{IsDistinct};
ghost use Rattle.std.specs.Map.{keys_of, lookup};
ghost use Rattle.std.specs.Option.{option_copied, option_copied_mut};
ghost use Rattle.wl_number_map.specs.inner.Entries.{IsFirst};
ghost use Rattle.wl_number_map.specs.inner.Lends.{lends_few};
ghost use Rattle.wl_number_map.specs.inner.Entries.{IsPut};
ghost use Rattle.wl_number_map.specs.inner.NumberMap.{shown};

use indexmap::IndexMap;
use std::alloc::{AllocError, Global};
use std::marker::Model;

/// How many there are at most: so few that to look at each number costs no more than a hash.
const LIMIT: usize = 4;

/// Values with distinct numbers, at most `LIMIT` of them, in one block of memory. Most of a service's maps have a
/// single value (an agent of an origin, its one request), for which a hash map would make room for nine.
#[derive(Drop)]
pub(crate) struct Few<V> {
    rows: Vec<(u64, V)>,
}

impl<V> Model for Few<V> {
    ghost use Rattle.std.specs.Prelude.{ℕ, List, ◌==◌, ◌≤◌, length};
    ghost use Rattle.std.specs.List.{IsDistinct};
    ghost use Rattle.std.specs.Map.{keys_of};

    ghost Value = { List (ℕ × V) };

    ghost view = { λ f. f.rows.items };

    ghost invariant = { λ f. IsDistinct (λ a b. a == b) (keys_of f.rows.items) × (length f.rows.items ≤ 4) };
}

impl<V> Few<V> {
    pub(crate) fn new(alloc: Global) -> Few<V>
        ensures { result ≡ [] }
    {
        Few {
            rows: Vec::new(alloc),
        }
    }

    /// Where a number stands.
    fn place(&self, number: u64) -> Option<usize>
        ensures there { IfSome result (λ place. place < length self.now) }
        ensures first { IfSome result (λ place. IsFirst (λ k. number == k) self.now place) }
        ensures absent { IfNone result (lookup (λ k. number == k) self.now ≡ None) }
    {
        let mut place = 0;
        for row in &self.rows {
            if row.0 == number {
                return Some(place);
            }
            place += 1;
        }
        None
    }

    pub(crate) fn len(&self) -> usize
        ensures len { result ≡ length self.now }
        ensures few { result ≤ 4 }
        ensures distinct { IsDistinct (λ a b. a == b) (keys_of self.now) }
    {
        self.rows.len()
    }

    /// Whether one more may stand here.
    pub(crate) fn has_room(&self) -> bool
        ensures { result ≡ true → length self.now + 1 ≤ 4 }
    {
        self.rows.len() < LIMIT
    }

    pub(crate) fn get(&self, number: u64) -> Option<&V>
        ensures { option_copied result ≡ lookup (λ k. number == k) self.now }
    {
        match self.place(number) {
            Some(place) => Some(&self.rows[place].1),
            None => None,
        }
    }

    pub(crate) fn get_mut(&mut self, number: u64) -> Option<&mut V>
        ensures* writes_back { sem 𝓛 (lends_few V.row self.entry number result) }
        ensures value { option_copied_mut result ≡ lookup (λ k. number == k) self.old }
    {
        match self.place(number) {
            Some(place) => Some(&mut self.rows[place].1),
            None => None,
        }
    }

    /// One more value, at a number that has none.
    pub(crate) fn push(&mut self, number: u64, value: V) -> Result<(), AllocError>
    where
        V: Drop,
        requires room { length self.old + 1 ≤ 4 }
        requires absent { lookup (λ k. number == k) self.old ≡ None }
        ensures updates { OnOk result (IsPut number (Some value) self.old self.new) }
        ensures err { OnErr result (self.new ≡ self.old) }
    {
        make_room(&mut self.rows)?;
        self.rows.push((number, value))?;
        Ok(())
    }

    pub(crate) fn remove(&mut self, number: u64) -> Option<V>
        ensures value { result ≡ lookup (λ k. number == k) self.old }
        ensures updates { IsPut number None self.old self.new }
        ensures unchanged { IfNone result (self.new ≡ self.old) }
    {
        match self.place(number) {
            Some(place) => Some(self.rows.remove(place).1),
            None => None,
        }
    }

    /// All values and one more, at a number that has none, in a hash map. Nothing moves before it has its memory.
    pub(crate) fn spread(
        &mut self,
        alloc: Global,
        number: u64,
        value: V,
    ) -> Result<Box<IndexMap<u64, V>>, AllocError>
    where
        V: Drop,
        requires absent { lookup (λ k. number == k) self.old ≡ None }
        ensures updates { IfOk result (λ map. IsPut number (Some value) self.old map.value.entries) }
        ensures err { OnErr result (self.new ≡ self.old) }
    {
        let mut map = Box::new(alloc, IndexMap::with_capacity(alloc, self.len() + 1)?)?;
        self.move_to(&mut map);
        put_reserved(&mut map, number, value);
        Ok(map)
    }

    /// Moves each value to a hash map that has none and has room for more than those.
    fn move_to(&mut self, map: &mut IndexMap<u64, V>)
    where
        V: Drop,
        requires none { map.old.entries ≡ [] }
        requires room { length self.old < spare map.old }
        ensures moved { (q : ℕ) → lookup (λ k. q == k) map.new.entries ≡ lookup (λ k. q == k) self.old }
        ensures room_left { 0 < spare map.new }
    {
        while let Some((number, value)) = self.rows.pop() {
            put_reserved(map, number, value);
        }
    }

    /// Each value comes to a list, with its number.
    pub(crate) fn list<'a>(&'a self, rows: &mut Vec<(u64, &'a V)>) -> Result<(), AllocError>
        ensures { OnOk result (shown rows.new.items ≡ shown rows.old.items ++ self.now) }
    {
        for row in &self.rows {
            rows.push((row.0, &row.1))?;
        }
        Ok(())
    }
}

/// A list that is full grows to twice its length, and one of none to one.
fn make_room<V>(rows: &mut Vec<(u64, V)>) -> Result<(), AllocError>
    ensures { rows.new.items ≡ rows.old.items }
{
    if rows.len() < rows.capacity() {
        return Ok(());
    }
    rows.reserve_exact(rows.len().max(1))
}

/// Puts a value at a number of a hash map that has room for it.
fn put_reserved<V: Drop>(map: &mut IndexMap<u64, V>, number: u64, value: V)
    requires { 0 < spare map.old }
    ensures updates { IsPut number (Some value) map.old.entries map.new.entries }
    ensures room { spare map.old ≤ spare map.new + 1 }
{
    map.insert(number, value).unwrap();
}
