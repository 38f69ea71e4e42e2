//! What an agent of an opaque origin is answered, which has no manager.

ghost use Rattle.std.specs.Prelude.{◌≡◌};
ghost use Rattle.wl_machine.specs.Refusals.{activity, no_storage};

use wl_types::{Kind, Refusal};

/// What its requests and queries are refused.
pub fn no_storage(kind: Kind, active: bool) -> Refusal
    ensures { result ≡ no_storage kind active }
{
    match kind {
        Kind::Window if !active => Refusal::InvalidState,
        _ => Refusal::Security,
    }
}

/// What it is answered where it is made active or inactive.
pub fn activity(kind: Kind) -> Result<(), Refusal>
    ensures { result ≡ activity kind }
{
    match kind {
        Kind::Window => Ok(()),
        Kind::Worker => Err(Refusal::NotAWindow),
    }
}
