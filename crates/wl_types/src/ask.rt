//! What an agent asks for.

ghost use Rattle.std.specs.Prelude.{◌≡◌, IfErr, OnOk, None, Some};
ghost use Rattle.wl_types.specs.Asks.{ask_refusal};

use crate::refusal::Refusal;
use crate::text::Text;
use crate::words::Mode;

/// A request for a lock, with the options of Web Locks' `LockOptions`.
#[derive(Debug, PartialEq, Eq, Drop)]
pub struct Ask {
    /// The name of the resource. The core refuses one that is reserved or too long.
    pub name: Text,
    pub mode: Mode,
    /// To be granted at once or not at all.
    pub if_available: bool,
    /// To be granted at once, and whoever holds the name loses it.
    pub steal: bool,
    /// The number of the agent's signal that aborts the request.
    pub signal: Option<u64>,
}

impl Ask {
    /// The checks of `request()` that need no state, in the standard's order: a reserved name, `steal` with
    /// `ifAvailable`, `steal` with mode shared, a signal with `steal` or `ifAvailable`.
    pub fn check(&self) -> Result<(), Refusal>
        ensures ok { OnOk result (ask_refusal self.now ≡ None) }
        ensures refused { IfErr result (λ refusal. ask_refusal self.now ≡ Some refusal) }
    {
        if self.name.is_reserved() {
            return Err(Refusal::ReservedName);
        }
        if self.steal && self.if_available {
            return Err(Refusal::StealIfAvailable);
        }
        if self.steal && self.mode == Mode::Shared {
            return Err(Refusal::StealShared);
        }
        if self.signal.is_some() && (self.steal || self.if_available) {
            return Err(Refusal::SignalCombined);
        }
        Ok(())
    }
}
