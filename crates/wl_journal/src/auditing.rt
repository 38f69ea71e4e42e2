//! Whether entries are a legal history.

ghost use Rattle.std.specs.Prelude.{◌≡◌, ℕ, ◌⊎◌, IfErr, OnOk, Err};
ghost use Rattle.wl_journal.specs.History.{IsLegal, IsFirstIllegal, Explains};

use crate::comparing::same_reply;
use crate::entry::Entry;
use std::error::Error;
use std::fmt;
use wl_core::{LockCore, PlainCore, apply, lacks_memory};

/// Why an audit found no legal history.
#[derive(Clone, Copy, Debug, PartialEq, Eq, Drop)]
pub enum AuditFault {
    /// The place, from 0, of the first entry whose reply isn't the machine's.
    Illegal(u64),
    /// A growth was refused before the audit came to its end. It says nothing of the entries.
    Memory,
}

impl fmt::Display for AuditFault {
    fn fmt<W: fmt::Write>(&self, f: &mut fmt::Formatter<W>) -> fmt::Result {
        match self {
            AuditFault::Illegal(place) => write!(f, "entry {place} is illegal"),
            AuditFault::Memory => write!(f, "out of memory"),
        }
    }
}

impl Error for AuditFault {}

/// Whether the entries are legal: does their commands on a core of the state before them, and compares each reply with
/// the entry's. It takes as long as the core's calls do.
pub fn replay<C: LockCore>(from: C, entries: &[Entry]) -> Result<(), AuditFault>
    ensures legal { OnOk result (IsLegal (C.state from) entries.now) }
    ensures illegal { IfErr result (λ fault. Explains (C.state from) entries.now fault) }
    ensures where_legal { IsLegal (C.state from) entries.now → IfErr result (λ fault. fault ≡ AuditFault.Memory) }
    ensures where_illegal { (place : ℕ) → IsFirstIllegal (C.state from) entries.now place
        → (result ≡ Err (AuditFault.Illegal place)) ⊎ (result ≡ Err AuditFault.Memory) }
{
    let mut core = from;
    let mut place: u64 = 0;
    for entry in entries {
        let reply = apply(&mut core, &entry.command);
        if lacks_memory(&reply) {
            return Err(AuditFault::Memory);
        }
        if !same_reply(&reply, &entry.reply) {
            return Err(AuditFault::Illegal(place));
        }
        place += 1;
    }
    Ok(())
}

/// Whether the entries are legal: replays them on a copy of the base, which keeps its allocator, and whose calls go
/// over all its locks and requests. The base may be a book's own or that of an earlier cut.
pub fn audit(base: &PlainCore, entries: &[Entry]) -> Result<(), AuditFault>
    ensures legal { OnOk result (IsLegal base.now.state entries.now) }
    ensures illegal { IfErr result (λ fault. Explains base.now.state entries.now fault) }
    ensures where_legal { IsLegal base.now.state entries.now → IfErr result (λ fault. fault ≡ AuditFault.Memory) }
    ensures where_illegal { (place : ℕ) → IsFirstIllegal base.now.state entries.now place
        → (result ≡ Err (AuditFault.Illegal place)) ⊎ (result ≡ Err AuditFault.Memory) }
{
    match base.copy_plain() {
        Ok(core) => replay(core, entries),
        Err(_) => Err(AuditFault::Memory),
    }
}
