//! The lines of a reader.

ghost use Rattle.std.specs.Prelude.{◌≡◌, ◌≤◌, ◌<◌, ◌∷◌, ◌++◌, [], length, true, false, Ok, Err, Option, ℕ, List, OnOk};
ghost use Rattle.std.specs.Io.KnownBytes.{IsAtEnd};
ghost use Rattle.wl_server.specs.Lines.{GivesLine, GivesTooLong, to_come};
ghost use Rattle.wl_server.specs.inner.Lines.{GivesPart};

use crate::piece::Piece;
use std::alloc::Global;
use std::io::Read;
use std::sync::Wait;
use wl_codec::{LONGEST_LINE, split_line};

/// Why there is no next line.
#[derive(Clone, Copy, Debug, PartialEq, Eq, Drop)]
pub enum NoLine {
    TooLong,
    Read,
    Memory,
}

/// Adds bytes to a line.
fn add(line: &mut Vec<u8>, part: &[u8]) -> Result<(), NoLine>
    ensures added { OnOk result (line.new.items ≡ line.old.items ++ part.now) }
    ensures short { OnOk result (length line.new.items ≤ 65536) }
    ensures long { result ≡ Err NoLine.TooLong → (line.new.items ≡ line.old.items ++ part.now)
        × (65536 < length line.new.items) }
{
    if line.extend_from_slice(part).is_err() {
        return Err(NoLine::Memory);
    }
    if line.len() > LONGEST_LINE {
        return Err(NoLine::TooLong);
    }
    Ok(())
}

/// A reader, and what was read of it and is in no line yet.
#[derive(Drop)]
pub struct Lines<R> {
    reader: R,
    piece: Piece,
}

impl<R: Read + Drop> Lines<R> {
    /// Nothing is read, and no memory taken, before the first line is asked for.
    pub fn new(alloc: Global, reader: R) -> Lines<R>
        ensures { to_come R.remaining result ≡ R.remaining reader }
    {
        Lines {
            reader,
            piece: Piece::new(alloc),
        }
    }

    /// Adds to a line what the piece has of it, and answers whether it ended.
    fn take_part(&mut self, line: &mut Vec<u8>) -> Result<bool, NoLine>
        ensures ended { result ≡ Ok true → GivesPart (to_come R.remaining self.old) line.old.items line.new.items
            (10 ∷ []) (to_come R.remaining self.new) }
        ensures open { result ≡ Ok false → GivesPart (to_come R.remaining self.old) line.old.items line.new.items []
            (to_come R.remaining self.new) }
        ensures used { result ≡ Ok false → self.new.piece ≡ [] }
        ensures short { OnOk result (length line.new.items ≤ 65536) }
        ensures long { result ≡ Err NoLine.TooLong → ((left : Option (List ℕ))
            × GivesPart (to_come R.remaining self.old) line.old.items line.new.items [] left
            × (65536 < length line.new.items)) }
    {
        let rest = self.piece.rest();
        match split_line(rest) {
            Some((part, _)) => {
                let taken = part.len() + 1;
                match add(line, part) {
                    Ok(()) => {
                        self.piece.skip(taken);
                        Ok(true)
                    }
                    Err(fault) => Err(fault),
                }
            }
            None => {
                let taken = rest.len();
                match add(line, rest) {
                    Ok(()) => {
                        self.piece.skip(taken);
                        Ok(false)
                    }
                    Err(fault) => Err(fault),
                }
            }
        }
    }

    /// Puts the next line without its LF in place of what `line` has, and answers true, or false at the end. A last
    /// line without LF is one if it has a byte.
    pub fn next_line<W: Wait>(&mut self, rt: &W, line: &mut Vec<u8>) -> Result<bool, NoLine>
        ensures given { result ≡ Ok true → GivesLine (to_come R.remaining self.old) line.new.items
            (to_come R.remaining self.new) }
        ensures short { result ≡ Ok true → length line.new.items ≤ 65536 }
        ensures end { result ≡ Ok false → IsAtEnd (to_come R.remaining self.old) }
        ensures long { result ≡ Err NoLine.TooLong → GivesTooLong (to_come R.remaining self.old) 65536 }
    {
        line.clear();
        for _ in rt.forever() {
            match self.take_part(line) {
                Ok(true) => return Ok(true),
                Ok(false) => {}
                Err(fault) => return Err(fault),
            }
            match self.piece.read(rt, &mut self.reader) {
                Ok(()) => {}
                Err(fault) => return Err(fault),
            }
            if self.piece.rest().is_empty() {
                return Ok(!line.is_empty());
            }
        }
        unreachable!()
    }
}
