//! The client id that a snapshot shows for an agent.

ghost use Rattle.std.specs.Prelude.{◌≡◌, IfOk, string_bytes};
ghost use Rattle.wl_types.specs.Client.{client_id};

use crate::memory::Memory;
use std::alloc::Global;

/// The `clientId` of the agent of this number: `client-` and the number in decimal.
pub fn client_text(alloc: Global, client: u64) -> Result<String, Memory>
    ensures { IfOk result (λ text. string_bytes text ≡ client_id client) }
{
    Ok(format!(in alloc; "client-{client}")?)
}
