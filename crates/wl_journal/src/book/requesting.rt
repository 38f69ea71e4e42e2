//! A request whose ask the journal keeps.

ghost use Rattle.std.specs.Prelude.{◌≡◌, [], IfOk, IfErr, OnErr};
ghost use Rattle.wl_types.specs.Refusals.{refused_or_memory};
ghost use Rattle.wl_machine.specs.Refusals.{refusal};
ghost use Rattle.wl_machine.specs.Step.{Gives};
ghost use Rattle.wl_journal.specs.History.{recorded};
ghost use Rattle.wl_journal.specs.Books.{Appends};

use crate::book::Book;
use crate::entry::Entry;
use crate::room::make_room;
use std::alloc::Global;
use wl_core::{Command, LockCore, Reply};
use wl_types::{Ask, Memory, Refusal, Text};

/// An equal ask, with a text of its own.
pub fn copy_ask(alloc: Global, ask: &Ask) -> Result<Ask, Memory>
    ensures { IfOk result (λ copy. copy ≡ ask.now) }
{
    Ok(Ask {
        name: Text::of(alloc, ask.name.as_str())?,
        mode: ask.mode,
        if_available: ask.if_available,
        steal: ask.steal,
        signal: ask.signal,
    })
}

impl<C: LockCore> Book<C> {
    /// As `request`, of an ask that the journal keeps: whoever holds a lock meanwhile can copy it before.
    pub fn request_kept(&mut self, agent: u64, ask: Ask) -> Result<u64, Refusal>
        ensures requested { IfOk result (λ id. Gives self.old.state (Command.Request agent ask) self.new.state
            (Reply.Request id) self.new.recent) }
        ensures refused { IfErr result (λ r. r ≡ refused_or_memory
            (refusal self.old.state (Command.Request agent ask))) }
        ensures unchanged { OnErr result (self.new.state ≡ self.old.state) }
        ensures no_changes { OnErr result (self.new.recent ≡ []) }
        ensures added { IfOk result (λ id. Appends self.old self.new
            (recorded (Command.Request agent ask) (Reply.Request id))) }
        ensures nothing_added { OnErr result (Appends self.old self.new []) }
    {
        self.is_quiet = true;
        self.core.may_request(agent, &ask)?;
        make_room(&mut self.entries, self.owed + 3)?;
        let id = self.core.request(agent, &ask)?;
        self.is_quiet = false;
        self.entries.push_reserved(Entry {
            command: Command::Request(agent, ask),
            reply: Reply::Request(id),
        });
        self.owed += 2;
        Ok(id)
    }
}
