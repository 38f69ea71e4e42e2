//! A plain core written row by row, so that a core of any kind can be copied.

ghost use Rattle.std.specs.Prelude.{◌≡◌, [], ◌∷◌, ◌++◌, IfOk, OnOk, OnErr};
ghost use Rattle.wl_machine.specs.State.{opening};

use crate::plain::PlainCore;
use crate::room::clear_list;
use std::alloc::Global;
use std::marker::Model;
use wl_machine::{AgentRow, HeldRow, PendingRow, SignalRow};
use wl_types::{Change, Memory, Name, Numbers};

/// A plain core that is being written. Each row goes to the end of its list.
#[derive(Drop)]
pub struct PlainDraft {
    agents: Vec<AgentRow>,
    signals: Vec<SignalRow>,
    names: Vec<Name>,
    held: Vec<HeldRow>,
    pending: Vec<PendingRow>,
    changes: Vec<Change>,
    next: Numbers,
    alloc: Global,
}

impl Model for PlainDraft {
    ghost use Rattle.std.specs.Prelude.{◌≡◌, []};
    ghost use Rattle.wl_machine.specs.State.{State};

    ghost Value = { State };

    ghost view = { λ d. record {
      agents = d.agents.items;
      signals = d.signals.items;
      names = d.names.items;
      held = d.held.items;
      pending = d.pending.items;
      next = d.next;
    } };

    ghost invariant = { λ d. d.changes.items ≡ [] };
}

impl PlainDraft {
    /// A draft without rows. `live` is how many locks and requests are to come: room for them is reserved at once.
    /// More or fewer may come.
    pub fn new(alloc: Global, next: Numbers, live: usize) -> Result<PlainDraft, Memory>
        ensures { IfOk result (λ draft. draft ≡ opening next) }
    {
        Ok(PlainDraft {
            agents: Vec::new(alloc),
            signals: Vec::new(alloc),
            names: Vec::new(alloc),
            held: Vec::with_capacity(alloc, live)?,
            pending: Vec::new(alloc),
            changes: Vec::new(alloc),
            next,
            alloc,
        })
    }

    /// `new`, in the room of another core's lists, whose rows are dropped: copies that are made in each other's room
    /// take new blocks for the names alone.
    pub fn in_room(core: PlainCore, next: Numbers, live: usize) -> Result<PlainDraft, Memory>
        ensures { IfOk result (λ draft. draft ≡ opening next) }
    {
        let PlainCore {
            mut agents,
            mut signals,
            mut names,
            mut held,
            mut pending,
            mut changes,
            alloc,
            ..
        } = core;
        clear_list(alloc, agents.len(), &mut agents)?;
        clear_list(alloc, signals.len(), &mut signals)?;
        clear_list(alloc, names.len(), &mut names)?;
        clear_list(alloc, held.len(), &mut held)?;
        clear_list(alloc, pending.len(), &mut pending)?;
        clear_list(alloc, changes.len(), &mut changes)?;
        held.reserve(live)?;
        Ok(PlainDraft {
            agents,
            signals,
            names,
            held,
            pending,
            changes,
            next,
            alloc,
        })
    }

    /// One more agent.
    pub fn agent(&mut self, row: AgentRow) -> Result<(), Memory>
        ensures ok { OnOk result (self.new ≡ record self.old { agents = self.old.agents ++ row ∷ [] }) }
        ensures err { OnErr result (self.new ≡ self.old) }
    {
        self.agents.push(row)?;
        Ok(())
    }

    /// One more signal.
    pub fn signal(&mut self, row: SignalRow) -> Result<(), Memory>
        ensures ok { OnOk result (self.new ≡ record self.old { signals = self.old.signals ++ row ∷ [] }) }
        ensures err { OnErr result (self.new ≡ self.old) }
    {
        self.signals.push(row)?;
        Ok(())
    }

    /// One more name in use, which is copied.
    pub fn name(&mut self, name: &Name) -> Result<(), Memory>
        ensures ok { OnOk result (self.new ≡ record self.old { names = self.old.names ++ name.now ∷ [] }) }
        ensures err { OnErr result (self.new ≡ self.old) }
    {
        let copy = name.copy(self.alloc)?;
        self.names.push(copy)?;
        Ok(())
    }

    /// One more lock, the last granted.
    pub fn held(&mut self, row: HeldRow) -> Result<(), Memory>
        ensures ok { OnOk result (self.new ≡ record self.old { held = self.old.held ++ row ∷ [] }) }
        ensures err { OnErr result (self.new ≡ self.old) }
    {
        self.held.push(row)?;
        Ok(())
    }

    /// One more request that waits, behind the others.
    pub fn pending(&mut self, row: PendingRow) -> Result<(), Memory>
        ensures ok { OnOk result (self.new ≡ record self.old { pending = self.old.pending ++ row ∷ [] }) }
        ensures err { OnErr result (self.new ≡ self.old) }
    {
        self.pending.push(row)?;
        Ok(())
    }

    /// The core of these rows, with no changes.
    pub fn done(self) -> Result<PlainCore, Memory>
        ensures state { IfOk result (λ core. core.state ≡ self) }
        ensures recent { IfOk result (λ core. core.recent ≡ []) }
    {
        let PlainDraft {
            agents,
            signals,
            names,
            mut held,
            pending,
            mut changes,
            next,
            alloc,
        } = self;
        held.reserve(pending.len())?;
        changes.reserve(held.len() + pending.len())?;
        Ok(PlainCore {
            agents,
            signals,
            names,
            held,
            pending,
            next,
            changes,
            alloc,
        })
    }
}
