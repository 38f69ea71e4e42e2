//! Agents of opaque origins, which have no manager.

ghost use Rattle.std.specs.Prelude.{◌≡◌};
ghost use Rattle.wl_machine.specs.Refusals.{activity};
ghost use Rattle.wl_service.specs.Clients.{active_after};

use wl_machine::activity;
use wl_types::{Kind, Refusal};

/// An agent that has no manager: its kind, and whether it is active.
#[derive(Drop)]
pub(crate) struct OpaqueAgent {
    pub(crate) kind: Kind,
    pub(crate) active: bool,
}

impl OpaqueAgent {
    /// Makes a window active or inactive.
    pub(crate) fn set_active(&mut self, active: bool) -> Result<(), Refusal>
        ensures answer { result ≡ activity self.old.kind }
        ensures new { self.new ≡ record self.old { active = active_after self.old.kind self.old.active active } }
    {
        activity(self.kind)?;
        self.active = active;
        Ok(())
    }
}
