//! What a snapshot shows.

ghost use Rattle.std.specs.Prelude.{◌≡◌, [], ◌∷◌, ◌++◌, OnOk, OnErr};

use crate::memory::Memory;
use crate::text::Name;
use crate::words::Mode;
use std::alloc::Global;
use std::marker::Model;

/// A lock or a request as a snapshot shows it: Web Locks' `LockInfo`.
#[derive(Debug, PartialEq, Eq, Drop)]
pub struct LockInfo {
    pub name: Name,
    pub mode: Mode,
    /// The number of the agent whose it is. `client_text` gives its `clientId`.
    pub client: u64,
}

/// A list of locks or of requests, in the order in which a snapshot shows them.
#[derive(Debug, Drop)]
pub struct Infos {
    list: Vec<LockInfo>,
}

impl Model for Infos {
    ghost use Rattle.std.specs.Prelude.{List};
    ghost use Rattle.wl_types.specs.declared.infos.LockInfo.{LockInfo};

    ghost Value = { List LockInfo };

    ghost view = { λ infos. infos.list.items };
}

impl Infos {
    pub fn new(alloc: Global) -> Infos
        ensures { result ≡ [] }
    {
        Infos {
            list: Vec::new(alloc),
        }
    }

    pub fn push(&mut self, info: LockInfo) -> Result<(), Memory>
        ensures ok { OnOk result (self.new ≡ self.old ++ info ∷ []) }
        ensures err { OnErr result (self.new ≡ self.old) }
    {
        self.list.push(info)?;
        Ok(())
    }

    pub fn as_slice(&self) -> &[LockInfo]
        ensures { result.now ≡ self.now }
    {
        self.list.as_slice()
    }
}

/// What is held and what waits: Web Locks' `LockManagerSnapshot`.
#[derive(Debug, Drop)]
pub struct Snapshot {
    /// The locks, in the order in which they were granted.
    pub held: Infos,
    /// The requests that wait, queue after queue.
    pub pending: Infos,
}
