//! The words by which a world hashes names.

use std::io;
use std::random::RandomSource;

/// Sixteen bytes that the caller chose. No reply shows them: they only spread the names over a table's places.
#[repr(C)]
#[derive(Clone, Copy, Drop)]
pub struct Seed {
    pub bytes: [u8; 16],
}

impl RandomSource for Seed {
    fn fill_bytes(&self, buf: &mut [u8]) -> io::Result<()> {
        for (place, byte) in buf.iter_mut().zip(self.bytes.iter()) {
            *place = *byte;
        }
        Ok(())
    }
}
