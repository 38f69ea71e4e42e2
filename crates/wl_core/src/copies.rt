//! Copies of the plain core's lists.

ghost use Rattle.std.specs.Prelude.{◌≡◌, ◌≤◌, length, vec_len, vec_capacity, IfOk};

use crate::room::push_in_room;
use std::alloc::Global;
use wl_machine::{HeldRow, PendingRow};
use wl_types::{Memory, Name};

/// A row with a name in it, so that a copy takes memory.
pub(crate) trait Row: Drop {
    fn copy_row(&self, alloc: Global) -> Result<Self, Memory>
        ensures { IfOk result (λ copy. copy ≡ self.now) };
}

impl Row for Name {
    fn copy_row(&self, alloc: Global) -> Result<Name, Memory> {
        self.copy(alloc)
    }
}

impl Row for HeldRow {
    fn copy_row(&self, alloc: Global) -> Result<HeldRow, Memory> {
        Ok(HeldRow {
            number: self.number,
            agent: self.agent,
            name: self.name.copy(alloc)?,
            mode: self.mode,
            signal: self.signal,
            taken: self.taken,
        })
    }
}

impl Row for PendingRow {
    fn copy_row(&self, alloc: Global) -> Result<PendingRow, Memory> {
        Ok(PendingRow {
            number: self.number,
            agent: self.agent,
            name: self.name.copy(alloc)?,
            mode: self.mode,
            signal: self.signal,
        })
    }
}

/// A copy of the rows with room for this many, reserved at once.
pub(crate) fn copy_rows<T: Row>(alloc: Global, rows: &[T], room: usize) -> Result<Vec<T>, Memory>
    requires { length rows.now ≤ room }
    ensures items { IfOk result (λ copy. copy.items ≡ rows.now) }
    ensures len { IfOk result (λ copy. vec_len copy ≡ length rows.now) }
    ensures room { IfOk result (λ copy. room ≤ vec_capacity copy) }
{
    let mut copy = Vec::with_capacity(alloc, room)?;
    for row in rows {
        push_in_room(&mut copy, row.copy_row(alloc)?);
    }
    Ok(copy)
}

/// A copy of rows that own nothing.
pub(crate) fn copy_values<T: Copy + Drop>(alloc: Global, rows: &[T]) -> Result<Vec<T>, Memory>
    ensures { IfOk result (λ copy. copy.items ≡ rows.now) }
{
    Ok(Vec::from_slice(alloc, rows)?)
}
