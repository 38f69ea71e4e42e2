//! A core for each key.

ghost use Rattle.std.specs.Prelude.{◌≡◌, ◌<◌, false, List, [], length, slice_get, Some, None, is_some, IsTrue, ◌↔◌};
ghost use Rattle.std.specs.Prelude.{OnOk, OnErr, if◌then◌else◌};
ghost use Rattle.std.specs.BTreeMap.{insert_entry};
ghost use Rattle.wl_machine.specs.State.{opening};
ghost use Rattle.wl_machine.specs.Step.{step};
ghost use Rattle.wl_core.specs.Answers.{Answers, content_of, is_memory};
ghost use Rattle.wl_core.specs.Realm.{all_ones, at_key, with_at, realm_of, realm_step};

use crate::commands;
use crate::lock_core::LockCore;
use std::alloc::Global;
use std::collections::BTreeMap;
use std::marker::Model;
use wl_machine::{Command, Reply};
use wl_origin::ManagerKey;
use wl_types::{Memory, Numbers};

/// A core for each bucket of each origin.
pub type Realm<C> = KeyedRealm<ManagerKey, C>;

/// Cores by their keys, seen as a list in the order of the keys. A core stays for the life of the realm.
#[derive(Drop)]
pub struct KeyedRealm<K: Ord, C> {
    cores: BTreeMap<K, C>,
    alloc: Global,
}

impl<K: Ord, C> Model for KeyedRealm<K, C> {
    ghost use Rattle.std.specs.Prelude.{List};

    ghost Value = { List (K × C) };

    ghost view = { λ r. r.cores.entries };
}

impl<K: Ord + Drop, C: LockCore> KeyedRealm<K, C> {
    /// A realm of no key.
    pub fn new(alloc: Global) -> KeyedRealm<K, C>
        ensures { result ≡ [] }
    {
        KeyedRealm {
            cores: BTreeMap::new(alloc),
            alloc,
        }
    }

    /// Whether the key has a core.
    pub fn has(&self, key: &K) -> bool
        ensures { result ≡ is_some (at_key K.cmp self.now key.now) }
    {
        self.cores.contains_key(key)
    }

    /// How many keys have a core.
    pub fn len(&self) -> usize
        ensures { result ≡ length self.now }
    {
        self.cores.len()
    }

    /// Whether no key has a core.
    pub fn is_empty(&self) -> bool
        ensures { IsTrue result ↔ (self.now ≡ []) }
    {
        self.cores.is_empty()
    }

    /// Gives the key an empty core, all its numbers 1. A key that has a core keeps it, and the seed is dropped.
    pub fn add(&mut self, key: K, seed: C::Seed) -> Result<(), Memory>
        ensures there { IsTrue (is_some (at_key K.cmp self.old key)) → (result ≡ Ok tt) × (self.new ≡ self.old) }
        ensures new { at_key K.cmp self.old key ≡ None → OnOk result
            ((core : C) × (C.state core ≡ opening all_ones) × (C.recent core ≡ [])
            × (self.new ≡ insert_entry K.cmp self.old key core)) }
        ensures err { OnErr result (self.new ≡ self.old) }
        ensures realm { realm_of K.cmp C.state self.new ≡ realm_of K.cmp C.state self.old }
    {
        if self.cores.contains_key(&key) {
            return Ok(());
        }
        let next = Numbers {
            agent: 1,
            request: 1,
            signal: 1,
        };
        let core = C::make(self.alloc, seed, next);
        self.cores.insert(key, core)?;
        Ok(())
    }

    /// Does one command on the core of the key. Each other key keeps its core.
    pub fn apply(&mut self, key: &K, command: &Command) -> Reply
        requires { IsTrue (is_some (at_key K.cmp self.old key.now)) }
        ensures core { (old new : C) × (at_key K.cmp self.old key.now ≡ Some old)
            × (self.new ≡ with_at K.cmp self.old key.now new)
            × Answers (content_of C.state C.recent old) command.now (content_of C.state C.recent new) result }
        ensures realm { realm_of K.cmp C.state self.new ≡ (if is_memory result then realm_of K.cmp C.state self.old
            else realm_step K.cmp (realm_of K.cmp C.state self.old) key.now command.now) }
        ensures reply { is_memory result ≡ false → result ≡ (step (realm_of K.cmp C.state self.old key.now)
            command.now).reply }
    {
        let core = self.cores.get_mut(key).unwrap();
        commands::apply(core, command)
    }

    /// The core of the key.
    pub fn core(&self, key: &K) -> &C
        requires { IsTrue (is_some (at_key K.cmp self.now key.now)) }
        ensures { at_key K.cmp self.now key.now ≡ Some result.now }
    {
        self.cores.get(key).unwrap()
    }

    /// The key at this place, from 0 in the order of the keys, and its core.
    pub fn nth(&self, i: usize) -> (&K, &C)
        requires { i < length self.now }
        ensures { slice_get self.now i ≡ Some (result.0.now, result.1.now) }
    {
        self.cores.iter().nth(i).unwrap()
    }
}
