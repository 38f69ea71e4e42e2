//! The managers by their keys.

ghost use Rattle.std.specs.Prelude.{◌≡◌, ◌≢◌, ◌<◌, [], length, None, IfErr, IfNone, IfOk, IfSome, OnErr, OnOk};
ghost use Rattle.std.specs.Prelude.{option_map};
ghost use Rattle.std.specs.Arc.{arc_value};
ghost use Rattle.std.specs.Option.{option_copied};
ghost use Rattle.std.specs.Range.Bound.{bound_map};
ghost use Rattle.wl_service.specs.declared.fault.OpenFault.TheVariants.{BadUrl, BadBucket};
ghost use Rattle.wl_service.specs.Directory.{Adds, KeepsOthers, kept_for};
ghost use Rattle.wl_service.specs.Listing.{MayFollow, bound_after, first_of, left_after};
ghost use Rattle.wl_service.specs.inner.Opening.{fault_of};

use crate::fault::OpenFault;
use crate::listing::is_asked;
use std::alloc::Global;
use std::collections::BTreeMap;
use std::hash::RandomState;
use std::ops::Bound;
use std::sync::{Arc, Wait};
use wl_index::IndexCore;
use wl_manager::{Agent, Bell, CoarseClock, Manager, Recent};
use wl_origin::{ManagerKey, OriginKey};
use wl_types::{Kind, Memory, Refusal};

/// The core of every manager.
pub type Core = IndexCore;

/// A manager as the directory and its agents hold it.
pub(crate) type Shared = Arc<Manager<Core, Recent>, Global>;

/// Which managers a service keeps.
#[derive(Clone, Copy, Debug, PartialEq, Eq)]
pub enum Keeping {
    /// Each that was ever made, so that its numbers go on.
    Each,
    /// Those that have a client, and so many of them at most. A manager that is made again begins with number 1.
    Used { most: usize },
}

/// A manager for each bucket of an origin at which somebody opened, in the order of their keys. It stays for as long
/// as `Keeping` says.
#[derive(Drop)]
pub(crate) struct Directory {
    managers: BTreeMap<ManagerKey, Shared>,
    // Of each manager's core.
    seed: RandomState,
    // Of each manager.
    clock: Option<CoarseClock>,
}

/// Why a manager that refuses an agent opens no client. It refuses for no other cause.
pub(crate) fn fault_of(refusal: Refusal) -> OpenFault
    ensures { result ≡ fault_of refusal }
{
    match refusal {
        Refusal::TooManyAgents => OpenFault::TooManyAgents,
        Refusal::NumbersSpent => OpenFault::NumbersSpent,
        _ => OpenFault::Memory,
    }
}

/// What is behind this key, or all.
fn bound_after(after: Option<&ManagerKey>) -> Bound<&ManagerKey>
    ensures { bound_map (λ key. key.now) result ≡ bound_after (option_copied after.entry) }
{
    match after {
        Some(key) => Bound::Excluded(key),
        None => Bound::Unbounded,
    }
}

impl Directory {
    pub(crate) fn new(alloc: Global, seed: RandomState, clock: Option<CoarseClock>) -> Directory
        ensures { result.managers.entries ≡ [] }
    {
        Directory {
            managers: BTreeMap::new(alloc),
            seed,
            clock,
        }
    }

    /// The manager of the key, if it has one.
    pub(crate) fn find(&self, key: &ManagerKey) -> Option<&Shared>
        ensures { option_copied result ≡ kept_for self.now.managers.entries key.now }
    {
        self.managers.get(key)
    }

    /// How many keys have a manager.
    pub(crate) fn len(&self) -> usize
        ensures { result ≡ length self.now.managers.entries }
    {
        self.managers.len()
    }

    /// The first agent of a key that has no manager. Its manager is added last, so where something is refused none
    /// does.
    pub(crate) fn add<R: Wait>(
        &mut self,
        rt: &R,
        alloc: Global,
        key: ManagerKey,
        kind: Kind,
        bell: Option<Bell>,
    ) -> Result<Agent<Core, Recent>, OpenFault>
        requires { kept_for self.old.managers.entries key ≡ None }
        ensures ok { OnOk result (Adds self.old.managers.entries self.new.managers.entries key) }
        ensures err { OnErr result (self.new.managers.entries ≡ self.old.managers.entries) }
        ensures fault { IfErr result (λ fault. (fault ≢ BadUrl) × (fault ≢ BadBucket)) }
    {
        let Ok(manager) = self.new_manager(rt, alloc) else {
            return Err(OpenFault::Memory);
        };
        let agent = Manager::open_heard(&manager, rt, kind, bell).map_err(fault_of)?;
        match self.managers.insert(key, manager) {
            Ok(_) => Ok(agent),
            Err(_) => Err(OpenFault::Memory),
        }
    }

    fn new_manager<R>(&self, rt: &R, alloc: Global) -> Result<Shared, Memory> {
        let clock = match &self.clock {
            Some(clock) => Some(clock.share()?),
            None => None,
        };
        Manager::with_clock(rt, alloc, self.seed, (), (), clock)
    }

    /// The first manager behind this key, or of all, of those that are asked for: with its key.
    pub(crate) fn next(
        &self,
        alloc: Global,
        after: Option<&ManagerKey>,
        only: Option<&OriginKey>,
    ) -> Result<Option<(ManagerKey, Shared)>, Memory>
        ensures first { IfOk result (λ found. option_map (λ one. one.0) found
            ≡ option_map (λ one. one.0) (first_of (left_after (option_copied after.entry) (option_copied only.entry)
            self.now.managers.entries))) }
        ensures manager { IfOk result (λ found. option_map (λ one. arc_value one.1) found
            ≡ option_map (λ one. arc_value one.1) (first_of
            (left_after (option_copied after.entry) (option_copied only.entry) self.now.managers.entries))) }
        ensures may { IfOk result (λ found. IfSome found (λ one. MayFollow (option_copied after.entry)
            (option_copied only.entry) one.0)) }
    {
        for (key, manager) in self.managers.range((bound_after(after), Bound::Unbounded)) {
            if is_asked(only, key) {
                return Ok(Some((key.copy(alloc)?, Arc::try_clone(manager)?)));
            }
        }
        Ok(None)
    }

    /// How many of those that are asked for stand behind this key.
    pub(crate) fn count_left(&self, after: Option<&ManagerKey>, only: Option<&OriginKey>) -> u64
        ensures { result ≡ length (left_after (option_copied after.entry) (option_copied only.entry)
            self.now.managers.entries) }
    {
        let mut count = 0;
        for (key, _) in self.managers.range((bound_after(after), Bound::Unbounded)) {
            if is_asked(only, key) {
                count += 1;
            }
        }
        count
    }

    /// Takes the key's manager out, if nobody but the directory holds it: no client, and no ticket. Who opens takes
    /// hold of a manager under the directory's lock, so nobody comes between.
    pub(crate) fn take_unused(&mut self, key: &ManagerKey) -> Option<Shared>
        ensures taken { IfSome result (λ manager. kept_for self.new.managers.entries key.now ≡ None) }
        ensures others { KeepsOthers self.old.managers.entries self.new.managers.entries key.now }
        ensures used { IfNone result (self.new.managers.entries ≡ self.old.managers.entries) }
    {
        if self.is_unused(key) {
            self.managers.remove(key)
        } else {
            None
        }
    }

    fn is_unused(&self, key: &ManagerKey) -> bool {
        match self.find(key) {
            Some(manager) => Arc::strong_count(manager) == 1,
            None => false,
        }
    }
}
