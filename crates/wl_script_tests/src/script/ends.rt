//! A run in memory, and how it ends.

use super::fakes::{Full, Pieces, Room, in_pieces, pieces_and_a_fault, slow_writer};
use std::alloc::{AllocError, Global};
use std::random::RandomSource;
use wl_script::{Limits, ScriptFault, audit, run, run_with};

/// Room for any replies that a test wants.
pub const AMPLE: usize = 1000;

/// What is read and in what pieces, whether the reader fails at the end of it, what the writer has room for, how much
/// of it in a call and what it does then, and the limits of a line's bytes and of reads, where they aren't those of
/// `run`.
#[derive(Clone, Copy)]
pub struct Run<'a> {
    pub script: &'a [u8],
    pub piece: usize,
    pub fails: bool,
    pub room: usize,
    pub most: usize,
    pub full: Full,
    pub limits: Option<(u64, u32)>,
}

/// How it ended, how many bytes of what is wanted were written, and in how many calls.
#[derive(Clone, Copy)]
pub struct Ended {
    pub result: Result<u64, ScriptFault>,
    /// `None` where others were written.
    pub written: Option<usize>,
    pub calls: u64,
}

/// A run in pieces of at most so many bytes, with ample room and without limits of its own.
pub fn plain(script: &[u8], piece: usize) -> Run<'_> {
    Run {
        script,
        piece,
        fails: false,
        room: AMPLE,
        most: AMPLE,
        full: Full::Fails,
        limits: None,
    }
}

impl<'a> Run<'a> {
    fn reader(&self) -> Pieces<'a> {
        if self.fails {
            pieces_and_a_fault(self.script, self.piece)
        } else {
            in_pieces(self.script, self.piece)
        }
    }

    fn writer(&self, alloc: Global) -> Result<Room, AllocError> {
        slow_writer(alloc, self.room, self.most, self.full)
    }

    /// Runs the script, which is wanted to write these bytes, or as many of them as it comes to.
    pub fn ends<R: RandomSource + AllocGlobal>(
        &self,
        rt: &R,
        wanted: &str,
    ) -> Result<Ended, AllocError> {
        let mut reader = self.reader();
        let mut writer = self.writer(rt.alloc())?;
        let result = match self.limits {
            Some((line, turns)) => {
                let turns = u64::from(turns);
                run_with(rt, &mut reader, &mut writer, Limits { line, turns })
            }
            None => run(rt, &mut reader, &mut writer),
        };
        Ok(end_of(result, &writer, wanted))
    }

    /// The same of an audit.
    pub fn audit_ends<R: RandomSource + AllocGlobal>(
        &self,
        rt: &R,
        wanted: &str,
    ) -> Result<Ended, AllocError> {
        let mut reader = self.reader();
        let mut writer = self.writer(rt.alloc())?;
        let result = audit(rt, &mut reader, &mut writer);
        Ok(end_of(result, &writer, wanted))
    }
}

pub fn end_of(answer: Result<u64, ScriptFault>, writer: &Room, wanted: &str) -> Ended {
    let written = writer.bytes.as_slice();
    let is_wanted = wanted.as_bytes().starts_with(written);
    Ended {
        result: answer,
        written: is_wanted.then_some(written.len()),
        calls: writer.calls,
    }
}
