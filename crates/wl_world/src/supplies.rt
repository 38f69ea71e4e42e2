//! What the managers of a world are made of.

use std::alloc::Global;

/// The memory of a world, and the seed of each of its cores.
#[derive(Drop)]
pub(crate) struct Supplies<S> {
    pub alloc: Global,
    pub seed: S,
}
