//! What an indexed core is made of, beside its numbers.

use std::hash::RandomState;
use std::random::RandomSource;
use wl_types::Memory;

/// Random words, by which a core hashes names. `Memory` where the system gives none.
pub fn random_seed<R: RandomSource>(rt: &R) -> Result<RandomState, Memory> {
    match RandomState::new(rt) {
        Ok(seed) => Ok(seed),
        Err(_) => Err(Memory),
    }
}
