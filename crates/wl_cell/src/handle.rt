//! A seat with the word that it steps on. Each function here makes one kind of step, once, and is the only one
//! that does; what it tells is said of phases, and words stay inside.

ghost use Rattle.std.specs.Prelude.{◌≡◌, IsTrue, IfOk, false};
ghost use Rattle.std.specs.Bool.{OnTrue, OnFalse};
ghost use Rattle.wl_types.specs.declared.phases.Phase.{Phase};
ghost use Rattle.wl_types.specs.declared.phases.Phase.TheVariants.{Granted, Taken, Aborted};
ghost use Rattle.wl_cell.specs.declared.view.View.TheVariants.{Keeper};
ghost use Rattle.wl_cell.specs.Rule.{seen, took};
ghost use Rattle.wl_cell.specs.inner.Rule.{owner_at};
ghost use Rattle.wl_cell.specs.inner.Steps.{Precedes, seeing, taking, told, note_of, watch_of, owner_at_first};
ghost use Rattle.wl_cell.specs.inner.Steps.{keeper_at_first};
ghost use Rattle.wl_cell.specs.Seats.{may_settle};

use crate::plays::{ForKeeper, ForNote, ForWatch, Look, Settle, Take, Told, TryAbort};
use crate::view::{Board, Place};
use crate::word::{phase_of, word_of};
use std::alloc::Global;
use std::marker::Model;
use std::sync::Arc;
use wl_types::{Memory, Phase, Reason};

/// Contracts see which cell it is of, and what it knows.
#[derive(Drop)]
pub(crate) struct Handle {
    board: Arc<Board>,
    seat: Place,
}

impl Model for Handle {
    ghost use Rattle.std.specs.Prelude.{◌≡◌, []};
    ghost use Rattle.std.specs.Arc.{arc_value};
    ghost use Rattle.wl_cell.specs.inner.Seats.{Sitting};

    ghost Value = { Sitting };

    ghost view = { λ h. record { cell = h.seat.table_id; knows = h.seat.me.0 } };

    ghost invariant = { λ h. (h.seat.table_id ≡ (arc_value h.board).shared.table_id)
        × ((arc_value h.board).shared.table_id.words ≡ 1) × (h.seat.me.1 ≡ []) };
}

impl Handle {
    /// A new cell, at Pending: its owner's handle and its keeper's.
    pub(crate) fn pair(alloc: Global) -> Result<(Handle, Handle), Memory>
        ensures one { IfOk result (λ h. h.1.cell ≡ h.0.cell) }
        ensures owner { IfOk result (λ h. h.0.knows ≡ owner_at_first) }
        ensures keeper { IfOk result (λ h. h.1.knows ≡ keeper_at_first) }
    {
        let pending = word_of(Phase::Pending);
        let (table, mut seat) = Board::of_words(alloc, &[pending], &())?;
        let keepers = table.shared.split_seat::<ForKeeper>(&mut seat);
        let board = Arc::new(alloc, table)?;
        let other = Arc::try_clone(&board)?;
        let keeper = Handle {
            board: other,
            seat: keepers,
        };
        Ok((Handle { board, seat }, keeper))
    }

    /// A load.
    pub(crate) fn load(&mut self) -> Phase
        ensures sees { self.new ≡ record self.old { knows = seeing self.old.knows result } }
        ensures later { Precedes self.old.knows result }
    {
        phase_of(self.board.shared.load::<Look>(&mut self.seat, 0))
    }

    /// A store by the keeper.
    pub(crate) fn store(&mut self, phase: Phase)
        requires { (from : Phase) × (self.old.knows ≡ Keeper from) × IsTrue (may_settle from phase) }
        ensures { self.new ≡ record self.old { knows = Keeper phase } }
    {
        let word = word_of(phase);
        self.board.shared.store::<Settle>(&mut self.seat, 0, word);
    }

    /// The keeper's exchange of Granted for Aborted. Where it didn't, it found Taken.
    pub(crate) fn abort(&mut self, reason: Reason) -> bool
        requires { self.old.knows ≡ Keeper Granted }
        ensures aborted { OnTrue result (self.new ≡ record self.old { knows = Keeper (Aborted reason) }) }
        ensures taken { OnFalse result (self.new ≡ record self.old { knows = Keeper Taken }) }
    {
        let granted = word_of(Phase::Granted);
        let aborted = word_of(Phase::Aborted(reason));
        let shared = &self.board.shared;
        let found = shared.compare_exchange::<TryAbort>(&mut self.seat, 0, granted, aborted);
        found == granted
    }

    /// The owner's exchange of Granted for Taken. It answers what it found.
    pub(crate) fn take(&mut self) -> Phase
        requires { self.old.knows ≡ owner_at (took self.old.knows) (seen self.old.knows) }
        ensures takes { self.new ≡ record self.old { knows = taking self.old.knows result } }
        ensures later { Precedes self.old.knows result }
        ensures once { result ≡ Granted → took self.old.knows ≡ false }
    {
        let granted = word_of(Phase::Granted);
        let taken = word_of(Phase::Taken);
        let shared = &self.board.shared;
        phase_of(shared.compare_exchange::<Take>(&mut self.seat, 0, granted, taken))
    }

    /// A watch's handle, split off the owner's.
    pub(crate) fn watch(&mut self) -> Result<Handle, Memory>
        requires { self.old.knows ≡ owner_at (took self.old.knows) (seen self.old.knows) }
        ensures same { self.new ≡ self.old }
        ensures watch { IfOk result (λ w. w ≡ record { cell = self.old.cell; knows = watch_of self.old.knows }) }
    {
        let board = Arc::try_clone(&self.board)?;
        let seat = board.shared.split_seat::<ForWatch>(&mut self.seat);
        Ok(Handle { board, seat })
    }

    /// The owner tells a watch of its cell what it has seen: a note is split off, and the watch takes it in.
    pub(crate) fn tell(&mut self, watch: &mut Handle)
        requires cell { watch.old.cell ≡ self.old.cell }
        requires owner { self.old.knows ≡ owner_at (took self.old.knows) (seen self.old.knows) }
        ensures same { self.new ≡ self.old }
        ensures told { watch.new ≡ record watch.old { knows = told watch.old.knows (note_of self.old.knows) } }
    {
        let shared = &self.board.shared;
        let note = shared.split_seat::<ForNote>(&mut self.seat);
        watch.board.shared.join_seat::<Told>(&mut watch.seat, note);
    }
}
