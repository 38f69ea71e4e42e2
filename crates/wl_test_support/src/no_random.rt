//! A system that gives no random words.

use std::alloc::Global;
use std::io;
use std::io::ErrorKind;
use std::random::RandomSource;

/// A runtime that has memory, and whose system refuses all random words.
#[derive(Clone, Copy, Drop)]
pub struct NoRandom {
    pub alloc: Global,
}

impl Alloc for NoRandom {
    type A = Global;

    fn alloc(&self) -> Global {
        self.alloc
    }
}

impl RandomSource for NoRandom {
    fn fill_bytes(&self, _buf: &mut [u8]) -> io::Result<()> {
        Err(io::Error::from(ErrorKind::Other))
    }
}
