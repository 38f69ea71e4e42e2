//! What a handshake's page may open.

ghost use Rattle.std.specs.Prelude.{◌≡◌, IfOk, map};
ghost use Rattle.wl_admission.specs.Scopes.{page_reach, reach_of, tuple_in};
ghost use Rattle.wl_admission.specs.Handshakes.{Answers, sender_reach};

use crate::rejection::Rejection;
use crate::scope::{Scope, origin_in};
use std::alloc::Global;
use wl_origin::Standing;
use wl_types::Memory;

/// What the sender of a handshake with these `Origin` headers may open. Without one it is a program, and no page can
/// leave it out; so a program may open all that its token does. `trusted` are the origins whose pages may open all,
/// too.
pub fn sender_scope(alloc: Global, origins: &[&str], trusted: &Scope) -> Result<Scope, Rejection>
    ensures { Answers reach_of (sender_reach (reach_of trusted.now) (map (λ o. o.now) origins.now)) result }
{
    match origins {
        [] => Ok(Scope::All),
        [origin] => match page_scope(alloc, origin, trusted) {
            Ok(scope) => Ok(scope),
            Err(Memory) => Err(Rejection::Memory),
        },
        _ => Err(Rejection::SeveralOrigins),
    }
}

/// What a page of this origin may open. One whose origin is opaque, as `null` says, may open nothing, unless pages of
/// all origins are trusted.
fn page_scope(alloc: Global, origin: &str, trusted: &Scope) -> Result<Scope, Memory>
    ensures { IfOk result (λ scope. reach_of scope ≡ page_reach (reach_of trusted.now) (tuple_in origin.now)) }
{
    let standing = match origin_in(alloc, origin)? {
        Some(key) => Standing::Tuple(key),
        None => Standing::Opaque,
    };
    if trusted.admits(&standing) {
        return Ok(Scope::All);
    }
    let mut origins = Vec::new(alloc);
    if let Standing::Tuple(key) = standing {
        origins.push(key)?;
    }
    Ok(Scope::Only(origins))
}
