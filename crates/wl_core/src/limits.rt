//! The limits of a manager, which each core keeps, and how a refusal is told.

ghost use Rattle.std.specs.Prelude.{◌≡◌, OnOk, IfErr, Some, None};

use wl_types::Refusal;

/// How many agents of a manager may be live.
pub const AGENTS: usize = 4096;

/// How many signals an agent may make.
pub const SIGNALS: usize = 1024;

/// How many requests of a manager may be live.
pub const REQUESTS: usize = 65536;

/// How many bytes a name may have.
pub const NAME_BYTES: usize = 1024;

/// The first number that is given to nobody: 2^53.
pub const NUMBERS: u64 = 9007199254740992;

/// Ok where nothing is refused: what a core answers to `may_open` and its kin.
pub fn unless_refused(refusal: Option<Refusal>) -> Result<(), Refusal>
    ensures may { OnOk result (refusal ≡ None) }
    ensures refused { IfErr result (λ r. refusal ≡ Some r) }
{
    match refusal {
        Some(refusal) => Err(refusal),
        None => Ok(()),
    }
}
