//! What a lock manager's core does, however it keeps its state.

ghost use Rattle.std.specs.Prelude.{◌≡◌, ℕ, ◌<◌, List, [], IfOk, IfErr, OnErr, OnOk, Option, Some, None, true};
ghost use Rattle.std.specs.List.{slice_get};
ghost use Rattle.wl_types.specs.Refusals.{refused_or_memory};
ghost use Rattle.wl_types.specs.declared.phases.Change.{Change};
ghost use Rattle.wl_machine.specs.State.{State, opening, AreNumbers};
ghost use Rattle.wl_machine.specs.Least.{IsLeast, above};
ghost use Rattle.wl_machine.specs.Recorded.{with_entry};
ghost use Rattle.wl_machine.specs.Refusals.{refusal};
ghost use Rattle.wl_machine.specs.Step.{step, Gives, untaken_numbers};

use crate::plain::PlainCore;
use std::alloc::Global;
use wl_machine::{Command, Reply};
use wl_types::{
    AbortAnswer, Ask, Change, Kind, Memory, Numbers, Reason, Refusal, ReleaseAnswer, Snapshot,
    TakeAnswer,
};

/// The core of a lock manager: the lock machine of one bucket of an origin. Contracts see a core as the machine's state
/// and the changes of its last call; each call is the machine's step for the command of that name.
///
/// A call that is refused answers the first refusal that applies, in the order of docs/FORMATS.md, and `Memory` only
/// where no other does. It changes no state, uses up no number and leaves no changes. `take`, `release`, `abort`
/// and `terminate` take no memory: what they need was reserved when the request, the signal or the agent came.
pub trait LockCore: Drop {
    /// What a core is made of, beside its numbers.
    type Seed: Drop;

    /// The machine's state.
    ghost state: { Self → State };

    /// What `changes` tells.
    ghost recent: { Self → List Change };

    /// How many entries its journal has ever had, where it keeps one.
    ghost entries: { Self → Option ℕ };

    /// The same of a core that was just made.
    ghost no_entries: { Option ℕ };

    /// A core without agents, signals and requests, that gives these numbers next. It takes no memory.
    fn make(alloc: Global, seed: Self::Seed, next: Numbers) -> Self
        requires { AreNumbers next }
        ensures state { state result ≡ opening next }
        ensures recent { recent result ≡ [] }
        ensures entries { entries result ≡ no_entries };

    /// A new agent, active. Its number is the answer. Refused: `TooManyAgents` where 4,096 are live, `NumbersSpent`.
    fn open(&mut self, kind: Kind) -> Result<u64, Refusal>
        ensures opened { IfOk result (λ agent. Gives (state self.old) (Command.Enter kind) (state self.new)
            (Reply.Agent agent) (recent self.new)) }
        ensures refused { IfErr result (λ r. r ≡ refused_or_memory (refusal (state self.old) (Command.Enter kind))) }
        ensures unchanged { OnErr result (state self.new ≡ state self.old) }
        ensures no_changes { OnErr result (recent self.new ≡ []) }
        ensures recorded { IfOk result (λ agent. entries self.new ≡ with_entry (Reply.Agent agent) (entries self.old)) }
        ensures not_recorded { OnErr result (entries self.new ≡ entries self.old) };

    /// Asks for a lock. The number of the request is the answer, also where it is unavailable at once; `changes`
    /// tells what became of it, and of others. Refused: `NoSuchAgent`, `InvalidState`, those of `Ask::check`,
    /// `NoSuchSignal`, `SignalAborted`, `NameTooLong`, `TooManyRequests` where 65,536 are live (a steal and one with
    /// `if_available` too), `NumbersSpent`.
    fn request(&mut self, agent: u64, ask: &Ask) -> Result<u64, Refusal>
        ensures requested { IfOk result (λ id. Gives (state self.old) (Command.Request agent ask.now) (state self.new)
            (Reply.Request id) (recent self.new)) }
        ensures refused { IfErr result (λ r. r ≡ refused_or_memory
            (refusal (state self.old) (Command.Request agent ask.now))) }
        ensures unchanged { OnErr result (state self.new ≡ state self.old) }
        ensures no_changes { OnErr result (recent self.new ≡ []) }
        ensures recorded { IfOk result (λ id. entries self.new ≡ with_entry (Reply.Request id) (entries self.old)) }
        ensures not_recorded { OnErr result (entries self.new ≡ entries self.old) };

    /// Marks a lock that is held and untaken as taken, whoever's it is: its agent is told of the grant. From then on
    /// an abort of its signal doesn't end it.
    fn take(&mut self, id: u64) -> TakeAnswer
        ensures taken { Gives (state self.old) (Command.Take id) (state self.new) (Reply.Took result)
            (recent self.new) }
        ensures recorded { entries self.new ≡ with_entry (Reply.Took result) (entries self.old) };

    /// The agent gives up its lock, taken or not; then the queues are processed.
    fn release(&mut self, agent: u64, id: u64) -> ReleaseAnswer
        ensures released { Gives (state self.old) (Command.Release agent id) (state self.new) (Reply.Released result)
            (recent self.new) }
        ensures recorded { entries self.new ≡ with_entry (Reply.Released result) (entries self.old) };

    /// Makes a window active or inactive: an inactive one may neither request nor query. Refused: `NoSuchAgent`,
    /// `NotAWindow`.
    fn set_active(&mut self, agent: u64, active: bool) -> Result<(), Refusal>
        ensures done { OnOk result (Gives (state self.old) (Command.SetActive agent active) (state self.new) Reply.Done
            (recent self.new)) }
        ensures refused { IfErr result (λ r. r ≡ refused_or_memory
            (refusal (state self.old) (Command.SetActive agent active))) }
        ensures unchanged { OnErr result (state self.new ≡ state self.old) }
        ensures no_changes { OnErr result (recent self.new ≡ []) }
        ensures recorded { OnOk result (entries self.new ≡ with_entry Reply.Done (entries self.old)) }
        ensures not_recorded { OnErr result (entries self.new ≡ entries self.old) };

    /// A new signal of the agent, not aborted. Its number is the answer. Refused: `NoSuchAgent`, `TooManySignals`
    /// where the agent has made 1,024, `NumbersSpent`.
    fn new_signal(&mut self, agent: u64) -> Result<u64, Refusal>
        ensures made { IfOk result (λ signal. Gives (state self.old) (Command.NewSignal agent) (state self.new)
            (Reply.Signal signal) (recent self.new)) }
        ensures refused { IfErr result (λ r. r ≡ refused_or_memory
            (refusal (state self.old) (Command.NewSignal agent))) }
        ensures unchanged { OnErr result (state self.new ≡ state self.old) }
        ensures no_changes { OnErr result (recent self.new ≡ []) }
        ensures recorded { IfOk result (λ signal. entries self.new
            ≡ with_entry (Reply.Signal signal) (entries self.old)) }
        ensures not_recorded { OnErr result (entries self.new ≡ entries self.old) };

    /// Aborts the agent's signal for this reason, once. Its requests that wait and its locks that weren't taken end;
    /// then the queues are processed. Refused: `NoSuchAgent`, `NoSuchSignal`.
    fn abort(&mut self, agent: u64, signal: u64, reason: Reason) -> Result<AbortAnswer, Refusal>
        ensures aborted { IfOk result (λ answer. Gives (state self.old) (Command.Abort agent signal reason)
            (state self.new) (Reply.Aborted answer) (recent self.new)) }
        ensures refused { IfErr result (λ r. refusal (state self.old) (Command.Abort agent signal reason) ≡ Some r) }
        ensures unchanged { OnErr result (state self.new ≡ state self.old) }
        ensures no_changes { OnErr result (recent self.new ≡ []) }
        ensures recorded { IfOk result (λ answer. entries self.new
            ≡ with_entry (Reply.Aborted answer) (entries self.old)) }
        ensures not_recorded { OnErr result (entries self.new ≡ entries self.old) };

    /// Ends the agent with its requests, locks and signals; then the queues are processed. Refused: `NoSuchAgent`.
    fn terminate(&mut self, agent: u64) -> Result<(), Refusal>
        ensures ended { OnOk result (Gives (state self.old) (Command.Terminate agent) (state self.new) Reply.Done
            (recent self.new)) }
        ensures refused { IfErr result (λ r. refusal (state self.old) (Command.Terminate agent) ≡ Some r) }
        ensures unchanged { OnErr result (state self.new ≡ state self.old) }
        ensures no_changes { OnErr result (recent self.new ≡ []) }
        ensures recorded { OnOk result (entries self.new ≡ with_entry Reply.Done (entries self.old)) }
        ensures not_recorded { OnErr result (entries self.new ≡ entries self.old) };

    /// The changes of the last call on `&mut self`: the ends, and then the grants, each in the machine's order. They
    /// are no part of the state.
    fn changes(&self) -> &[Change]
        ensures { result.now ≡ recent self.now };

    /// What is held and what waits. Refused: `NoSuchAgent`, `InvalidState`.
    fn snapshot(&self, agent: u64) -> Result<Snapshot, Refusal>
        ensures seen { IfOk result (λ seen. step (state self.now) (Command.Query agent)
            ≡ record { state = state self.now; reply = Reply.Seen seen; changes = [] }) }
        ensures refused { IfErr result (λ r. r ≡ refused_or_memory (refusal (state self.now) (Command.Query agent))) };

    /// Whether an agent, of whatever kind, may open, memory aside. This and the three calls after it let a caller
    /// that keeps more than the core make all its growths first.
    fn may_open(&self) -> Result<(), Refusal>
        ensures may { OnOk result (refusal (state self.now) (Command.Enter Kind.Window) ≡ None) }
        ensures refused { IfErr result (λ r. refusal (state self.now) (Command.Enter Kind.Window) ≡ Some r) };

    /// Whether the agent may be made active or inactive, memory aside.
    fn may_set(&self, agent: u64) -> Result<(), Refusal>
        ensures may { OnOk result (refusal (state self.now) (Command.SetActive agent true) ≡ None) }
        ensures refused { IfErr result (λ r. refusal (state self.now) (Command.SetActive agent true) ≡ Some r) };

    /// Whether the agent may have a new signal, memory aside.
    fn may_signal(&self, agent: u64) -> Result<(), Refusal>
        ensures may { OnOk result (refusal (state self.now) (Command.NewSignal agent) ≡ None) }
        ensures refused { IfErr result (λ r. refusal (state self.now) (Command.NewSignal agent) ≡ Some r) };

    /// Whether the agent may ask for this, memory aside.
    fn may_request(&self, agent: u64, ask: &Ask) -> Result<(), Refusal>
        ensures may { OnOk result (refusal (state self.now) (Command.Request agent ask.now) ≡ None) }
        ensures refused { IfErr result (λ r. refusal (state self.now) (Command.Request agent ask.now) ≡ Some r) };

    /// The number of the `i`-th lock, from 0 in held order, that an abort of the agent's signal would end.
    fn untaken(&self, agent: u64, signal: u64, i: u64) -> Option<u64>
        ensures { result ≡ slice_get (untaken_numbers (state self.now) agent signal) i };

    /// The least number above `after` of the locks that an abort of the agent's signal would end. Asked again with
    /// each answer, it goes through them in the order of their numbers.
    fn untaken_above(&self, agent: u64, signal: u64, after: u64) -> Option<u64>
        ensures { IsLeast (above after (untaken_numbers (state self.now) agent signal)) result };

    /// A plain core of the same state, with no changes.
    fn copy_plain(&self) -> Result<PlainCore, Memory>
        ensures state { IfOk result (λ copy. copy.state ≡ state self.now) }
        ensures recent { IfOk result (λ copy. copy.recent ≡ []) };

    /// `copy_plain`, in the room of another plain core's lists. Where it is refused memory that core is gone too.
    fn copy_plain_in(&self, room: PlainCore) -> Result<PlainCore, Memory>
        ensures state { IfOk result (λ copy. copy.state ≡ state self.now) }
        ensures recent { IfOk result (λ copy. copy.recent ≡ []) };
}
