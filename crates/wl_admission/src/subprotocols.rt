//! The subprotocols that a handshake offers.

ghost use Rattle.std.specs.Prelude.{◌≡◌, ◌++◌, IfOk, OnOk, map};
ghost use Rattle.std.specs.Str.{trim};
ghost use Rattle.wl_admission.specs.Handshakes.{name_of, offers, selectable, selected_of};

use crate::pieces::pieces;
use std::alloc::{AllocError, Global};

const PUSH: &str = "weblocks.push";

const FENCE: &str = "weblocks.fence";

/// A subprotocol that a server may select.
#[derive(Clone, Copy, Debug, PartialEq, Eq)]
pub enum Subprotocol {
    /// `weblocks.push`, of a peer that wants changes pushed.
    Push,
    /// `weblocks.fence`, of a peer that wants changes pushed, and a fencing token with each grant.
    Fence,
}

impl Subprotocol {
    /// The name by which a handshake offers it, and an answer selects it.
    pub fn name(self) -> &'static str
        ensures { result.now ≡ name_of self }
    {
        match self {
            Subprotocol::Push => PUSH,
            Subprotocol::Fence => FENCE,
        }
    }
}

/// The subprotocols of these `Sec-WebSocket-Protocol` headers, in their order (RFC 6455, section 11.3.4: each is a list
/// with commas).
pub fn subprotocols<'a>(alloc: Global, headers: &[&'a str]) -> Result<Vec<&'a str>, AllocError>
    ensures { IfOk result (λ found. map (λ p. p.now) found.items ≡ offers (map (λ h. h.now) headers.now)) }
{
    let mut found = Vec::new(alloc);
    for header in headers {
        push_trimmed(&mut found, pieces(alloc, header, ',')?.as_slice())?;
    }
    Ok(found)
}

fn push_trimmed<'a>(found: &mut Vec<&'a str>, pieces: &[&'a str]) -> Result<(), AllocError>
    ensures { OnOk result (map (λ p. p.now) found.new.items
        ≡ map (λ p. p.now) found.old.items ++ map (λ p. trim p.now) pieces.now) }
{
    for piece in pieces {
        found.push(piece.trim())?;
    }
    Ok(())
}

/// The first of these that the server selects.
pub fn selected_of(subprotocols: &[&str], has_fences: bool) -> Option<Subprotocol>
    ensures { result ≡ selected_of has_fences (map (λ p. p.now) subprotocols.now) }
{
    for name in subprotocols {
        if let Some(selected) = selectable(name, has_fences) {
            return Some(selected);
        }
    }
    None
}

/// The subprotocol of this name, where the server may select it.
fn selectable(name: &str, has_fences: bool) -> Option<Subprotocol>
    ensures { result ≡ selectable has_fences name.now }
{
    if name == PUSH {
        Some(Subprotocol::Push)
    } else if has_fences && name == FENCE {
        Some(Subprotocol::Fence)
    } else {
        None
    }
}
