//! Rules without tokens.

ghost use Rattle.std.specs.Prelude.{◌≡◌, None, IfOk};
ghost use Rattle.wl_admission.specs.Scopes.{reach_of};

use crate::admitting::Rules;
use std::alloc::Global;
use wl_types::Memory;

impl Rules {
    /// The same rules for whoever has leave to come in without a token.
    pub fn copy_without_tokens(&self, alloc: Global) -> Result<Rules, Memory>
        ensures tokens { IfOk result (λ made. made.tokens ≡ None) }
        ensures pages { IfOk result (λ made. reach_of made.trusted ≡ reach_of self.now.trusted) }
        ensures fences { IfOk result (λ made. made.has_fences ≡ self.now.has_fences) }
        ensures sharded { IfOk result (λ made. made.is_sharded ≡ self.now.is_sharded) }
    {
        Ok(Rules {
            trusted: self.trusted.copy(alloc)?,
            tokens: None,
            has_fences: self.has_fences,
            is_sharded: self.is_sharded,
        })
    }
}
