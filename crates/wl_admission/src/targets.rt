//! The origin that a handshake's target names.
//!
//! Where origins are spread over several servers, a proxy chooses one by a handshake's target. So that each origin has
//! one server it has one target, and any other spelling of it is refused: else two servers could each have a manager of
//! one origin.

ghost use Rattle.std.specs.Prelude.{◌≡◌, ◌++◌, IfOk, OnOk, Some, string_bytes};
ghost use Rattle.std.specs.Str.Lossy.{utf8_lossy};
ghost use Rattle.percent_encoding.specs.Percent.{percent_decode};
ghost use Rattle.wl_admission.specs.Handshakes.{Answers};
ghost use Rattle.wl_admission.specs.Scopes.{reach_of, tuple_in};
ghost use Rattle.wl_admission.specs.Targets.{component, origin_named, reach_named, shard_reach, target_of};

use crate::rejection::Rejection;
use crate::scope::{Scope, origin_in};
use percent_encoding::{
    AsciiSet, NON_ALPHANUMERIC, ascii_set, percent_decode, utf8_percent_encode,
};
use std::alloc::{AllocError, Global};
use wl_origin::OriginKey;
use wl_types::Memory;

/// What stands before an origin's text.
const PREFIX: &str = "/?origin=";

/// The bytes of ASCII that `encodeURIComponent` of JavaScript escapes.
const ESCAPED: AsciiSet = ascii_set!(
    NON_ALPHANUMERIC
        .remove(b'-')
        .remove(b'_')
        .remove(b'.')
        .remove(b'!')
        .remove(b'~')
        .remove(b'*')
        .remove(b'\'')
        .remove(b'(')
        .remove(b')')
);

/// What a handshake with this target may open at a server of some origins alone: what has the origin that it names. At
/// any other server the target is not looked at.
pub fn shard_scope(alloc: Global, target: &str, is_sharded: bool) -> Result<Scope, Rejection>
    ensures { Answers reach_of (shard_reach is_sharded target.now) result }
{
    if !is_sharded {
        return Ok(Scope::All);
    }
    match origin_named(alloc, target) {
        Ok(Some(origin)) => scope_of(alloc, origin),
        Ok(None) => Err(Rejection::BadTarget),
        Err(Memory) => Err(Rejection::Memory),
    }
}

/// The scope of one origin.
fn scope_of(alloc: Global, origin: OriginKey) -> Result<Scope, Rejection>
    ensures { Answers reach_of (reach_named (Some origin)) result }
{
    let mut origins = Vec::new(alloc);
    match origins.push(origin) {
        Ok(()) => Ok(Scope::Only(origins)),
        Err(_) => Err(Rejection::Memory),
    }
}

/// The origin that a target names, if it names one.
fn origin_named(alloc: Global, target: &str) -> Result<Option<OriginKey>, Memory>
    ensures { IfOk result (λ found. found ≡ origin_named target.now) }
{
    let Some(spelled) = target.as_bytes().strip_prefix(PREFIX.as_bytes()) else {
        return Ok(None);
    };
    let Some(origin) = origin_spelled(alloc, spelled)? else {
        return Ok(None);
    };
    let own = target_of(alloc, &origin)?;
    Ok(if target == own.as_str() {
        Some(origin)
    } else {
        None
    })
}

/// The origin of the URL that these bytes spell, decoded.
fn origin_spelled(alloc: Global, spelled: &[u8]) -> Result<Option<OriginKey>, Memory>
    ensures { IfOk result (λ found. found ≡ tuple_in (utf8_lossy (percent_decode spelled.now))) }
{
    let text = percent_decode(spelled).decode_utf8_lossy(alloc)?;
    origin_in(alloc, text.as_str())
}

/// The target of an origin.
fn target_of(alloc: Global, origin: &OriginKey) -> Result<String, Memory>
    ensures { IfOk result (λ target. string_bytes target ≡ target_of origin.now) }
{
    let text = origin.text(alloc)?;
    let mut target = String::from_str(alloc, PREFIX)?;
    push_component(&mut target, text.as_str())?;
    Ok(target)
}

/// Adds a text as `encodeURIComponent` of JavaScript spells it.
fn push_component(target: &mut String, text: &str) -> Result<(), AllocError>
    ensures { OnOk result (string_bytes target.new ≡ string_bytes target.old ++ component text.now) }
{
    utf8_percent_encode(text, ESCAPED).append_to(target)
}
