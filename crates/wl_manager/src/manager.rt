//! A manager that threads share.

ghost use Rattle.std.specs.Prelude.{◌≡◌, ◌+◌, ◌≤◌, ◌^◌, length, true, IfOk, IfErr};
ghost use Rattle.wl_journal.specs.History.{IsLegal};
ghost use Rattle.wl_machine.specs.declared.command.Command.TheVariants as command;
ghost use Rattle.wl_manager.specs.Agents.{MayRefuse};
ghost use Rattle.wl_manager.specs.Listing.{MayList};
ghost use Rattle.wl_manager.specs.Locked.{WasCut, first};

use crate::agent::Agent;
use crate::coarse_clock::CoarseClock;
use crate::count::Count;
use crate::inbox::Inbox;
use crate::lock_list::LockList;
use crate::locked::{Leaving, Locked, TallyFault};
use crate::ring::Bell;
use std::alloc::Global;
use std::hint::spin_loop;
use std::sync::{Arc, Condvar, Mutex, MutexGuard, Wait};
use std::thread::yield_now;
use wl_core::{LockCore, PlainCore};
use wl_journal::Entry;
use wl_types::{Kind, Memory, Refusal};

/// How often a thread looks at a lock that another holds, before it lets others run: for about as long as most calls
/// take under it. An event loop that lets others run puts off all its connections.
const LOOKS: u32 = 50;

/// How often it lets others run then, before it sleeps until the lock is free.
const TRIES: u32 = 64;

/// Who is shown a manager's journal. It is called under the manager's lock: it should be short, and call nothing of
/// that manager.
pub trait Visitor {
    /// Shown all entries since the opening state.
    fn visit(&mut self, entries: &[Entry])
        requires { IsLegal first entries.now };

    /// Shown, in the place of `visit`, the entries since the last cut of a journal that was cut, and a core of the
    /// state before them. A visitor of managers that keep all entries needs no body of its own: this one does nothing.
    fn visit_since(&mut self, base: &PlainCore, entries: &[Entry])
        requires since { IsLegal base.now.state entries.now }
        requires cut { WasCut base.now.state entries.now }
    {}
}

/// A lock manager under one lock. Its agents and tickets hold it, and it lives until the last of them is dropped.
///
/// Where the type of its counts keeps all entries, its journal grows with each. Else it is cut once it has outgrown
/// what is live, so that a manager's memory grows with that alone.
#[derive(Drop)]
pub struct Manager<C: LockCore, T: Count> {
    pub(crate) alloc: Global,
    pub(crate) locked: Mutex<Locked<C, T>>,
    // Notified after each command that changed a request for which somebody may wait.
    pub(crate) published: Condvar,
}

impl<C: LockCore, T: Count> Manager<C, T> {
    /// A manager without agents, all its numbers 1. Where shares are counted, the total is 0 and the share is the
    /// whole of at least 2^53 parts, of which each agent that opens gets one.
    pub fn new<R>(
        rt: &R,
        alloc: Global,
        seed: C::Seed,
        total: T::Total,
        share: T::Share,
    ) -> Result<Arc<Manager<C, T>>, Memory>
        requires total { T.COUNTS ≡ true → T.total total ≡ 0 }
        requires all { T.COUNTS ≡ true → (T.parts share ≡ T.all) × (2 ^ 53 ≤ T.all) }
    {
        Manager::with_clock(rt, alloc, seed, total, share, None)
    }

    /// `new` of a manager that notes by this clock when its requests are asked for and when they are granted.
    pub fn with_clock<R>(
        _rt: &R,
        alloc: Global,
        seed: C::Seed,
        total: T::Total,
        share: T::Share,
        clock: Option<CoarseClock>,
    ) -> Result<Arc<Manager<C, T>>, Memory>
        requires total { T.COUNTS ≡ true → T.total total ≡ 0 }
        requires all { T.COUNTS ≡ true → (T.parts share ≡ T.all) × (2 ^ 53 ≤ T.all) }
    {
        let manager = Manager {
            alloc,
            locked: Mutex::new(Locked::new(alloc, seed, total, share, clock)),
            published: Condvar::new(),
        };
        Ok(Arc::new(alloc, manager)?)
    }

    /// A new agent. Refused: `TooManyAgents` where 4,096 are live, `NumbersSpent`, `Memory`.
    pub fn open<R: Wait>(
        this: &Arc<Manager<C, T>>,
        rt: &R,
        kind: Kind,
    ) -> Result<Agent<C, T>, Refusal>
        ensures counted { IfOk result (λ agent. T.COUNTS ≡ true → T.amount agent.share ≡ 1) }
        ensures refused { IfErr result (MayRefuse (command.Enter kind)) }
    {
        Manager::open_heard(this, rt, kind, None)
    }

    /// `open` of an agent that rings this bell when its requests change.
    pub fn open_heard<R: Wait>(
        this: &Arc<Manager<C, T>>,
        rt: &R,
        kind: Kind,
        bell: Option<Bell>,
    ) -> Result<Agent<C, T>, Refusal>
        ensures counted { IfOk result (λ agent. T.COUNTS ≡ true → T.amount agent.share ≡ 1) }
        ensures refused { IfErr result (MayRefuse (command.Enter kind)) }
    {
        // Made before the lock is taken, so that others wait for less.
        let (Ok(manager), Ok(inbox)) = (
            Arc::try_clone(this),
            Arc::new(this.alloc, Inbox::new(this.alloc, bell)),
        ) else {
            return Err(this.lock(rt).open_without_memory(kind));
        };
        let mut locked = this.lock(rt);
        let (number, share) = locked.open(kind)?;
        locked.trim();
        drop(locked);
        Ok(Agent {
            manager,
            number,
            share,
            inbox,
        })
    }

    /// Takes the lock. A thread that finds it held spins, and then lets others run for a while before it sleeps: what
    /// is done under it takes a few microseconds, and to wake takes longer.
    pub(crate) fn lock<R: Wait>(&self, rt: &R) -> MutexGuard<'_, Locked<C, T>> {
        for _ in 0..LOOKS {
            if let Some(locked) = self.locked.try_lock() {
                return locked;
            }
            spin_loop();
        }
        for _ in 0..TRIES {
            if let Some(locked) = self.locked.try_lock() {
                return locked;
            }
            yield_now();
        }
        self.locked.lock(rt)
    }

    /// Wakes those that wait, where there is something that they may wait for. Called without the lock.
    pub(crate) fn wake(&self, tells: bool) {
        if tells {
            self.published.notify_all();
        }
    }

    /// Calls the visitor once, under the lock: its `visit` while the journal has all entries, and once it was cut its
    /// `visit_since`, with those since the last cut.
    pub fn visit<R: Wait, V: Visitor>(&self, rt: &R, visitor: &mut V) {
        let locked = self.lock(rt);
        if locked.is_whole() {
            visitor.visit(locked.entries());
        } else {
            visitor.visit_since(locked.base(), locked.entries());
        }
    }

    /// At most so many rows of what is held and what waits, locks first, for whoever watches a server: it is no event
    /// of the machine, and no agent's. `now` is a time of the clock that the manager was made with; where it has none
    /// the rows' times mean nothing. It copies the manager's state under its lock.
    pub fn list_locks<R: Wait>(&self, rt: &R, most: usize, now: u64) -> Result<LockList, Memory>
        ensures may { IfOk result (MayList most) }
        ensures few { IfOk result (λ list. length list.held.items + length list.pending.items ≤ most) }
    {
        let (list, copy) = self.lock(rt).list_locks(most, now)?;
        drop(copy);
        Ok(list)
    }

    /// The number of entries, where at least as many Leavings were handed in, here and in tallies that succeeded, as
    /// agents opened. An agent that is dropped without `terminate` keeps its locks, and its Leaving is missing.
    pub fn tally<R: Wait>(&self, rt: &R, leavings: Vec<Leaving<T>>) -> Result<u64, TallyFault<T>>
        ensures { IfErr result (λ fault. fault ≡ TallyFault.Missing leavings) }
    {
        self.lock(rt).tally(leavings)
    }
}
