//! The book as a core. A call that may be refused for want of memory first asks the core whether it would refuse it
//! otherwise; then it grows the journal, calls the core, and records what the core accepted.

ghost use Rattle.std.specs.Prelude.{◌≡◌, [], IfOk, IfErr, OnErr, OnOk, Some};
ghost use Rattle.wl_types.specs.Refusals.{refused_or_memory};
ghost use Rattle.wl_machine.specs.State.{opening, AreNumbers};
ghost use Rattle.wl_machine.specs.Recorded.{with_entry};
ghost use Rattle.wl_machine.specs.Refusals.{refusal};
ghost use Rattle.wl_machine.specs.Step.{Gives};
ghost use Rattle.wl_journal.specs.History.{recorded};
ghost use Rattle.wl_journal.specs.Books.{Appends};

use crate::book::{Book, copy_ask};
use crate::entry::Entry;
use crate::room::make_room;
use std::alloc::Global;
use wl_core::{AbortAnswer, Command, LockCore, PlainCore, ReleaseAnswer, Reply, TakeAnswer};
use wl_types::{Ask, Change, Kind, Memory, Numbers, Reason, Refusal, Snapshot};

impl<C: LockCore> LockCore for Book<C> {
    type Seed = C::Seed;

    ghost state = { λ b. b.state };

    ghost recent = { λ b. b.recent };

    ghost entries = { λ b. Some b.total };

    ghost no_entries = { Some 0 };

    fn make(alloc: Global, seed: C::Seed, next: Numbers) -> Book<C>
        requires { AreNumbers next }
        ensures state { result.state ≡ opening next }
        ensures recent { result.recent ≡ [] }
        ensures base { result.base ≡ opening next }
        ensures no_entries { result.entries ≡ [] }
        ensures entries { Some result.total ≡ Some 0 }
    {
        Book {
            core: C::make(alloc, seed, next),
            base: PlainCore::make(alloc, (), next),
            spare: None,
            entries: Vec::new(alloc),
            owed: 0,
            handed_out: 0,
            is_quiet: false,
            alloc,
        }
    }

    fn open(&mut self, kind: Kind) -> Result<u64, Refusal>
        ensures opened { IfOk result (λ agent. Gives self.old.state (Command.Enter kind) self.new.state
            (Reply.Agent agent) self.new.recent) }
        ensures refused { IfErr result (λ r. r ≡ refused_or_memory (refusal self.old.state (Command.Enter kind))) }
        ensures unchanged { OnErr result (self.new.state ≡ self.old.state) }
        ensures no_changes { OnErr result (self.new.recent ≡ []) }
        ensures added { IfOk result (λ agent. Appends self.old self.new
            (recorded (Command.Enter kind) (Reply.Agent agent))) }
        ensures recorded { IfOk result (λ agent. Some self.new.total
            ≡ with_entry (Reply.Agent agent) (Some self.old.total)) }
        ensures nothing_added { OnErr result (Appends self.old self.new []) }
        ensures not_recorded { OnErr result (Some self.new.total ≡ Some self.old.total) }
    {
        self.is_quiet = true;
        self.core.may_open()?;
        make_room(&mut self.entries, self.owed + 2)?;
        let agent = self.core.open(kind)?;
        self.is_quiet = false;
        self.entries.push_reserved(Entry {
            command: Command::Enter(kind),
            reply: Reply::Agent(agent),
        });
        self.owed += 1;
        Ok(agent)
    }

    fn take(&mut self, id: u64) -> TakeAnswer
        ensures taken { Gives self.old.state (Command.Take id) self.new.state (Reply.Took result) self.new.recent }
        ensures added { Appends self.old self.new (recorded (Command.Take id) (Reply.Took result)) }
        ensures recorded { Some self.new.total ≡ with_entry (Reply.Took result) (Some self.old.total) }
    {
        self.is_quiet = false;
        let answer = self.core.take(id);
        match answer {
            TakeAnswer::Taken => {
                self.entries.push_reserved(Entry {
                    command: Command::Take(id),
                    reply: Reply::Took(answer),
                });
                self.owed -= 1;
            }
            TakeAnswer::NotGranted => {}
        }
        answer
    }

    fn release(&mut self, agent: u64, id: u64) -> ReleaseAnswer
        ensures released { Gives self.old.state (Command.Release agent id) self.new.state (Reply.Released result)
            self.new.recent }
        ensures added { Appends self.old self.new (recorded (Command.Release agent id) (Reply.Released result)) }
        ensures recorded { Some self.new.total ≡ with_entry (Reply.Released result) (Some self.old.total) }
    {
        self.is_quiet = false;
        let answer = self.core.release(agent, id);
        match answer {
            ReleaseAnswer::Released => {
                self.entries.push_reserved(Entry {
                    command: Command::Release(agent, id),
                    reply: Reply::Released(answer),
                });
                self.owed -= 1;
            }
            ReleaseAnswer::NotHeld => {}
        }
        answer
    }

    fn request(&mut self, agent: u64, ask: &Ask) -> Result<u64, Refusal>
        ensures requested { IfOk result (λ id. Gives self.old.state (Command.Request agent ask.now) self.new.state
            (Reply.Request id) self.new.recent) }
        ensures refused { IfErr result (λ r. r ≡ refused_or_memory
            (refusal self.old.state (Command.Request agent ask.now))) }
        ensures unchanged { OnErr result (self.new.state ≡ self.old.state) }
        ensures no_changes { OnErr result (self.new.recent ≡ []) }
        ensures added { IfOk result (λ id. Appends self.old self.new
            (recorded (Command.Request agent ask.now) (Reply.Request id))) }
        ensures recorded { IfOk result (λ id. Some self.new.total
            ≡ with_entry (Reply.Request id) (Some self.old.total)) }
        ensures nothing_added { OnErr result (Appends self.old self.new []) }
        ensures not_recorded { OnErr result (Some self.new.total ≡ Some self.old.total) }
    {
        self.is_quiet = true;
        self.core.may_request(agent, ask)?;
        match copy_ask(self.alloc, ask) {
            Ok(copy) => self.request_kept(agent, copy),
            Err(Memory) => Err(Refusal::Memory),
        }
    }

    fn set_active(&mut self, agent: u64, active: bool) -> Result<(), Refusal>
        ensures done { OnOk result (Gives self.old.state (Command.SetActive agent active) self.new.state Reply.Done
            self.new.recent) }
        ensures refused { IfErr result (λ r. r ≡ refused_or_memory
            (refusal self.old.state (Command.SetActive agent active))) }
        ensures unchanged { OnErr result (self.new.state ≡ self.old.state) }
        ensures no_changes { OnErr result (self.new.recent ≡ []) }
        ensures added { OnOk result (Appends self.old self.new (recorded (Command.SetActive agent active) Reply.Done)) }
        ensures recorded { OnOk result (Some self.new.total ≡ with_entry Reply.Done (Some self.old.total)) }
        ensures nothing_added { OnErr result (Appends self.old self.new []) }
        ensures not_recorded { OnErr result (Some self.new.total ≡ Some self.old.total) }
    {
        self.is_quiet = true;
        self.core.may_set(agent)?;
        make_room(&mut self.entries, self.owed + 1)?;
        self.core.set_active(agent, active)?;
        self.is_quiet = false;
        self.entries.push_reserved(Entry {
            command: Command::SetActive(agent, active),
            reply: Reply::Done,
        });
        Ok(())
    }

    fn new_signal(&mut self, agent: u64) -> Result<u64, Refusal>
        ensures made { IfOk result (λ signal. Gives self.old.state (Command.NewSignal agent) self.new.state
            (Reply.Signal signal) self.new.recent) }
        ensures refused { IfErr result (λ r. r ≡ refused_or_memory (refusal self.old.state (Command.NewSignal agent))) }
        ensures unchanged { OnErr result (self.new.state ≡ self.old.state) }
        ensures no_changes { OnErr result (self.new.recent ≡ []) }
        ensures added { IfOk result (λ signal. Appends self.old self.new
            (recorded (Command.NewSignal agent) (Reply.Signal signal))) }
        ensures recorded { IfOk result (λ signal. Some self.new.total
            ≡ with_entry (Reply.Signal signal) (Some self.old.total)) }
        ensures nothing_added { OnErr result (Appends self.old self.new []) }
        ensures not_recorded { OnErr result (Some self.new.total ≡ Some self.old.total) }
    {
        self.is_quiet = true;
        self.core.may_signal(agent)?;
        make_room(&mut self.entries, self.owed + 2)?;
        let signal = self.core.new_signal(agent)?;
        self.is_quiet = false;
        self.entries.push_reserved(Entry {
            command: Command::NewSignal(agent),
            reply: Reply::Signal(signal),
        });
        self.owed += 1;
        Ok(signal)
    }

    fn abort(&mut self, agent: u64, signal: u64, reason: Reason) -> Result<AbortAnswer, Refusal>
        ensures aborted { IfOk result (λ answer. Gives self.old.state (Command.Abort agent signal reason) self.new.state
            (Reply.Aborted answer) self.new.recent) }
        ensures refused { IfErr result (λ r. refusal self.old.state (Command.Abort agent signal reason) ≡ Some r) }
        ensures unchanged { OnErr result (self.new.state ≡ self.old.state) }
        ensures no_changes { OnErr result (self.new.recent ≡ []) }
        ensures added { IfOk result (λ answer. Appends self.old self.new
            (recorded (Command.Abort agent signal reason) (Reply.Aborted answer))) }
        ensures recorded { IfOk result (λ answer. Some self.new.total
            ≡ with_entry (Reply.Aborted answer) (Some self.old.total)) }
        ensures nothing_added { OnErr result (Appends self.old self.new []) }
        ensures not_recorded { OnErr result (Some self.new.total ≡ Some self.old.total) }
    {
        self.is_quiet = false;
        let answer = self.core.abort(agent, signal, reason)?;
        if let AbortAnswer::Done = answer {
            self.entries.push_reserved(Entry {
                command: Command::Abort(agent, signal, reason),
                reply: Reply::Aborted(answer),
            });
            self.owed -= 1;
        }
        Ok(answer)
    }

    fn terminate(&mut self, agent: u64) -> Result<(), Refusal>
        ensures ended { OnOk result (Gives self.old.state (Command.Terminate agent) self.new.state Reply.Done
            self.new.recent) }
        ensures refused { IfErr result (λ r. refusal self.old.state (Command.Terminate agent) ≡ Some r) }
        ensures unchanged { OnErr result (self.new.state ≡ self.old.state) }
        ensures no_changes { OnErr result (self.new.recent ≡ []) }
        ensures added { OnOk result (Appends self.old self.new (recorded (Command.Terminate agent) Reply.Done)) }
        ensures recorded { OnOk result (Some self.new.total ≡ with_entry Reply.Done (Some self.old.total)) }
        ensures nothing_added { OnErr result (Appends self.old self.new []) }
        ensures not_recorded { OnErr result (Some self.new.total ≡ Some self.old.total) }
    {
        self.is_quiet = false;
        self.core.terminate(agent)?;
        self.entries.push_reserved(Entry {
            command: Command::Terminate(agent),
            reply: Reply::Done,
        });
        self.owed -= 1;
        Ok(())
    }

    fn changes(&self) -> &[Change] {
        if self.is_quiet {
            return &[];
        }
        self.core.changes()
    }

    fn snapshot(&self, agent: u64) -> Result<Snapshot, Refusal> {
        self.core.snapshot(agent)
    }

    fn may_open(&self) -> Result<(), Refusal> {
        self.core.may_open()
    }

    fn may_set(&self, agent: u64) -> Result<(), Refusal> {
        self.core.may_set(agent)
    }

    fn may_signal(&self, agent: u64) -> Result<(), Refusal> {
        self.core.may_signal(agent)
    }

    fn may_request(&self, agent: u64, ask: &Ask) -> Result<(), Refusal> {
        self.core.may_request(agent, ask)
    }

    fn untaken(&self, agent: u64, signal: u64, i: u64) -> Option<u64> {
        self.core.untaken(agent, signal, i)
    }

    fn untaken_above(&self, agent: u64, signal: u64, after: u64) -> Option<u64> {
        self.core.untaken_above(agent, signal, after)
    }

    fn copy_plain(&self) -> Result<PlainCore, Memory> {
        self.core.copy_plain()
    }

    fn copy_plain_in(&self, room: PlainCore) -> Result<PlainCore, Memory> {
        self.core.copy_plain_in(room)
    }
}
