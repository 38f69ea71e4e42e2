//! An output for what nobody reads.

ghost use Rattle.std.specs.Prelude.{None};

use crate::{Failed, Output};

/// Takes all bytes, and keeps none. No write of it fails.
#[derive(Drop)]
pub struct Discard;

impl Output for Discard {
    ghost held = { λ s. None };

    ghost failures = { λ s. 0 };

    fn write(&mut self, piece: &[u8]) -> Result<usize, Failed> {
        Ok(piece.len())
    }
}
