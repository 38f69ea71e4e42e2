//! What the seats of a cell know of it. A table's seats are counted from 0, in the order in which they were made.

use atomic_table::{Seat, Table, TableRule};
use std::alloc::Global;
use wl_types::Phase;

/// What one seat knows. It stands in proofs alone: no value of it is made.
pub enum View {
    /// It is the only seat, and the keeper's will be split off it.
    First,
    /// The phase that the keeper last settled or found.
    Keeper(Phase),
    /// Whether the owner took the lock, and the phase that it saw last.
    Owner(bool, Phase),
    /// The phase that a watch saw last, and one that it was told of since.
    Watch(Phase, Phase),
    /// What the owner had seen, on its way to a watch.
    Note(Phase),
    /// A note that a watch has read.
    Spent,
}

/// The rule that each step on a cell keeps.
pub struct Settles;

impl TableRule<(), View, ()> for Settles {
    ghost use Rattle.wl_cell.specs.Rule.{Kept};
    ghost use Rattle.wl_cell.specs.declared.view.View.TheVariants.{First};

    ghost holds = { λ _. Kept };

    ghost first = { λ _. First };
}

/// The word, which the ends of a cell share.
pub type Board = Table<(), View, (), Settles, Global>;

/// The right of one end to step on the word.
pub type Place = Seat<(), View>;
