//! What one read gave.

ghost use Rattle.std.specs.Prelude.{◌≡◌, ◌≢◌, ◌≤◌, [], length, drop, Err, OnOk};
ghost use Rattle.std.specs.Io.KnownBytes.{Consumes, IsAtEnd};

use crate::lines::NoLine;
use std::alloc::Global;
use std::io::{ErrorKind, Read};
use std::marker::Model;
use std::sync::Wait;

/// The bytes of one read at most.
const MOST: usize = 8_192;

/// Bytes that were read. Contracts see those that are in no line yet.
#[derive(Drop)]
pub struct Piece {
    bytes: Vec<u8>,
    // The bytes that are in lines.
    at: usize,
    ghost within: { at ≤ length bytes.items },
}

impl Model for Piece {
    ghost use Rattle.std.specs.Prelude.{ℕ, List, drop};

    ghost Value = { List ℕ };

    ghost view = { λ piece. drop piece.at piece.bytes.items };
}

impl Piece {
    /// Nothing was read, and no memory taken.
    pub fn new(alloc: Global) -> Piece
        ensures { result ≡ [] }
    {
        Piece {
            bytes: Vec::new(alloc),
            at: 0,
        }
    }

    /// What is in no line yet.
    pub fn rest(&self) -> &[u8]
        ensures { result.now ≡ self.now }
    {
        &self.bytes[self.at..]
    }

    /// So many bytes more are in lines.
    pub fn skip(&mut self, count: usize)
        requires { count ≤ length self.old }
        ensures { self.new ≡ drop count self.old }
    {
        self.at += count;
    }

    /// Reads once, and has what came. Nothing came at the end.
    pub fn read<W: Wait, R: Read>(&mut self, rt: &W, reader: &mut R) -> Result<(), NoLine>
        ensures given { OnOk result (Consumes (R.remaining reader.old) (R.remaining reader.new) self.new) }
        ensures end { OnOk result (self.new ≡ [] → IsAtEnd (R.remaining reader.new)) }
        ensures failed { result ≢ Err NoLine.TooLong }
    {
        let mut bytes = [0; MOST];
        for _ in rt.forever() {
            match reader.read(&mut bytes) {
                Ok(n) => {
                    self.at = 0;
                    self.bytes.clear();
                    return match self.bytes.extend_from_slice(&bytes[..n]) {
                        Ok(()) => Ok(()),
                        Err(_) => Err(NoLine::Memory),
                    };
                }
                Err(error) => match error.kind() {
                    ErrorKind::Interrupted => {}
                    ErrorKind::OutOfMemory => return Err(NoLine::Memory),
                    _ => return Err(NoLine::Read),
                },
            }
        }
        unreachable!()
    }
}
