//! The tokens of grants: who is told them, and how.

ghost use Rattle.std.specs.Prelude.{◌≡◌, IfOk, string_bytes};
ghost use Rattle.wl_daemon.specs.Fencing.{IsFenced, wants_fences};

use std::alloc::Global;
use wl_admission::{Admitted, Subprotocol};
use wl_server::{FenceCounter, Peer, fenced_text};
use wl_types::Memory;

/// What the tokens of a daemon's grants are made of.
#[derive(Drop)]
pub struct Fencing {
    /// Greater than that of each daemon before this one.
    pub epoch: u64,
    pub counter: FenceCounter,
}

impl Fencing {
    /// That of a daemon which has an epoch.
    pub fn of(alloc: Global, epoch: Option<u64>) -> Result<Option<Fencing>, Memory> {
        let Some(epoch) = epoch else {
            return Ok(None);
        };
        let counter = FenceCounter::new(alloc)?;
        Ok(Some(Fencing { epoch, counter }))
    }
}

/// Whether a connection is told the tokens of its grants.
pub fn wants_fences(admitted: &Admitted) -> bool
    ensures { result ≡ wants_fences admitted.now.selected }
{
    admitted.selected == Some(Subprotocol::Fence)
}

/// What a peer made, as its connection is told it: with the tokens of what it grants, where there is an epoch.
pub fn text_with_tokens(
    alloc: Global,
    epoch: Option<u64>,
    peer: &Peer,
    text: String,
) -> Result<String, Memory>
    ensures { IfOk result (λ told. IsFenced epoch (string_bytes text) (string_bytes told)) }
{
    match epoch {
        Some(epoch) => fenced_text(alloc, epoch, peer.fences(), text),
        None => Ok(text),
    }
}
