//! Which URLs may be opened.

ghost use Rattle.std.specs.Prelude.{◌≡◌, IfOk};
ghost use Rattle.wl_origin.specs.Standing.{tuple_of};
ghost use Rattle.wl_admission.specs.Scopes.{admits, reach_of, tuple_in};

use std::alloc::Global;
use wl_origin::{KeyFault, OriginKey, Standing, key_of};
use wl_types::Memory;

/// Which URLs may be opened.
#[derive(Debug, Drop)]
pub enum Scope {
    /// All.
    All,
    /// Those of these origins. An opaque origin is none of them, since it equals none, itself included.
    Only(Vec<OriginKey>),
}

impl Scope {
    /// Whether a URL of this origin may be opened.
    pub fn admits(&self, origin: &Standing) -> bool
        ensures { result ≡ admits (reach_of self.now) (tuple_of origin.now) }
    {
        match self {
            Scope::All => true,
            Scope::Only(origins) => match origin {
                Standing::Tuple(key) => origins.contains(key),
                Standing::Opaque => false,
            },
        }
    }

    /// The same scope once more. `Memory` where a growth was refused.
    pub fn copy(&self, alloc: Global) -> Result<Scope, Memory>
        ensures { IfOk result (λ made. reach_of made ≡ reach_of self.now) }
    {
        match self {
            Scope::All => Ok(Scope::All),
            Scope::Only(origins) => Ok(Scope::Only(copy_origins(alloc, origins.as_slice())?)),
        }
    }
}

fn copy_origins(alloc: Global, origins: &[OriginKey]) -> Result<Vec<OriginKey>, Memory>
    ensures { IfOk result (λ made. made.items ≡ origins.now) }
{
    let mut made = Vec::new(alloc);
    for origin in origins {
        made.push(origin.copy(alloc)?)?;
    }
    Ok(made)
}

/// The tuple that the text's URL has as its origin; none where the text is no URL, as `null`, or its origin is opaque.
pub fn origin_in(alloc: Global, text: &str) -> Result<Option<OriginKey>, Memory>
    ensures { IfOk result (λ found. found ≡ tuple_in text.now) }
{
    match key_of(alloc, text) {
        Ok(Standing::Tuple(key)) => Ok(Some(key)),
        Ok(Standing::Opaque) | Err(KeyFault::BadUrl) => Ok(None),
        Err(KeyFault::Memory) => Err(Memory),
    }
}
