//! The values of a map with their numbers, in the order of the numbers.
ghost use Rattle.std.specs.Prelude.{◌≡◌, IfOk};
ghost use Rattle.wl_number_map.specs.inner.NumberMap.{in_order};
ghost use Rattle.std.specs.Iterator.{YieldsFirstBy, item_count};

use crate::store::Store;
use std::alloc::{AllocError, Global};
use std::marker::Model;
use std::vec;

/// Rows that are left to visit.
#[derive(Drop)]
pub struct Rows<'a, V> {
    rows: vec::IntoIter<(u64, &'a V)>,
}

impl<'a, V> Model for Rows<'a, V> {
    ghost use Rattle.std.specs.Prelude.{ℕ, List};
    ghost use Rattle.std.specs.Vec.Iter.{into_iter_items};
    ghost use Rattle.wl_number_map.specs.inner.NumberMap.{shown};

    ghost Value = { List (ℕ × V) };

    ghost view = { λ r. shown (into_iter_items r.rows) };
}

impl<'a, V> Rows<'a, V> {
    pub(crate) fn of(alloc: Global, values: &'a Store<V>) -> Result<Rows<'a, V>, AllocError>
        ensures { IfOk result (λ rows. rows ≡ in_order values.now) }
    {
        let mut rows = values.list(alloc)?;
        rows.sort_unstable_by_key(|row| row.0);
        Ok(Rows {
            rows: rows.into_iter(),
        })
    }
}

impl<'a, V> Iterator for Rows<'a, V> {
    type Item = (u64, &'a V);

    ghost next_gives = { YieldsFirstBy (λ item. (item.0, item.1.now)) (λ rest. rest) };

    ghost remaining = { item_count (λ rest. rest) };

    fn next(&mut self) -> Option<(u64, &'a V)> {
        self.rows.next()
    }
}
