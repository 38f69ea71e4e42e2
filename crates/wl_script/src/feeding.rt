//! Takes a piece of the input, and answers the lines that end in it.

ghost use Rattle.std.specs.Prelude.{◌≡◌, ◌↔◌, ◌≤◌, ◌<◌, ◌+◌, ◌^◌, ◌++◌, ◌∷◌, [], length, IfErr, OnOk, IsTrue};
ghost use Rattle.wl_codec.specs.Lines.{HasNoLf};
ghost use Rattle.wl_script.specs.Streams.{Counts};
ghost use Rattle.wl_script.specs.Faults.{is_write};
ghost use Rattle.wl_script.specs.inner.Progress.{moment, Fed, Breaks, CountsOn, IsNotKept};

use crate::replying::answer_line;
use crate::{Answerer, Output, ScriptFault};
use wl_codec::split_line;

/// How far a run has come.
#[derive(Drop)]
pub struct Progress {
    /// The bytes since the last LF that earlier reads gave.
    pub unfinished: Vec<u8>,
    /// The lines answered.
    pub answered: u64,
}

/// Whether the line that begins with these two parts is longer than the limit.
fn is_too_long(unfinished: &[u8], bytes: &[u8], limit: u64) -> bool
    ensures { IsTrue result ↔ (limit < length unfinished.now + length bytes.now) }
{
    unfinished.len() as u64 + bytes.len() as u64 > limit
}

/// Answers the line that these bytes end, whose LF comes next.
fn end_line<A: Answerer, W: Output>(
    answerer: &mut A,
    writer: &mut W,
    progress: &mut Progress,
    limit: u64,
    bytes: &[u8],
) -> Result<(), ScriptFault>
    requires room { progress.old.answered + 1 < 2 ^ 64 }
    requires open_end { HasNoLf progress.old.unfinished.items }
    requires no_lf { HasNoLf bytes.now }
    ensures fed { OnOk result (Fed limit
        (moment progress.old.unfinished.items progress.old.answered (A.world answerer.old) (W.held writer.old))
        (bytes.now ++ 10 ∷ [])
        (moment progress.new.unfinished.items progress.new.answered (A.world answerer.new) (W.held writer.new))) }
    ensures breaks { IfErr result (λ fault. Breaks limit
        (moment progress.old.unfinished.items progress.old.answered (A.world answerer.old) (W.held writer.old))
        (bytes.now ++ 10 ∷ []) fault (W.held writer.new)) }
    ensures ended { OnOk result (progress.new.unfinished.items ≡ []) }
    ensures entries { OnOk result (CountsOn (A.world answerer.old) (A.journals answerer.old)
        (progress.old.unfinished.items ++ bytes.now ++ 10 ∷ [])
        (A.world answerer.new) (A.journals answerer.new) progress.new.unfinished.items) }
    ensures one { OnOk result (progress.new.answered ≡ progress.old.answered + 1) }
    ensures counted { Counts (W.failures writer.old) (W.failures writer.new) (is_write result) }
{
    let answered = progress.answered;
    if is_too_long(&progress.unfinished, bytes, limit) {
        return Err(ScriptFault::LineTooLong(answered));
    }
    if progress.unfinished.is_empty() {
        answer_line(answerer, writer, bytes, answered)?;
    } else {
        let Ok(()) = progress.unfinished.extend_from_slice(bytes) else {
            return Err(ScriptFault::Memory(answered));
        };
        answer_line(answerer, writer, &progress.unfinished, answered)?;
    }
    progress.unfinished.clear();
    progress.answered += 1;
    Ok(())
}

/// Keeps the beginning of a line whose LF was not read yet.
fn keep(progress: &mut Progress, limit: u64, bytes: &[u8]) -> Result<(), ScriptFault>
    ensures kept { OnOk result (progress.new.unfinished.items ≡ progress.old.unfinished.items ++ bytes.now) }
    ensures short { OnOk result (length progress.new.unfinished.items ≤ limit) }
    ensures count { progress.new.answered ≡ progress.old.answered }
    ensures err { IfErr result (λ fault. IsNotKept limit progress.old.answered
        (progress.old.unfinished.items ++ bytes.now) fault) }
{
    if is_too_long(&progress.unfinished, bytes, limit) {
        return Err(ScriptFault::LineTooLong(progress.answered));
    }
    match progress.unfinished.extend_from_slice(bytes) {
        Ok(()) => Ok(()),
        Err(_) => Err(ScriptFault::Memory(progress.answered)),
    }
}

/// Takes some bytes, and answers the lines that end in them.
pub fn feed<A: Answerer, W: Output>(
    answerer: &mut A,
    writer: &mut W,
    progress: &mut Progress,
    limit: u64,
    piece: &[u8],
) -> Result<(), ScriptFault>
    requires room { progress.old.answered + length piece.now < 2 ^ 64 }
    requires open_end { HasNoLf progress.old.unfinished.items }
    ensures fed { OnOk result (Fed limit
        (moment progress.old.unfinished.items progress.old.answered (A.world answerer.old) (W.held writer.old))
        piece.now
        (moment progress.new.unfinished.items progress.new.answered (A.world answerer.new) (W.held writer.new))) }
    ensures breaks { IfErr result (λ fault. Breaks limit
        (moment progress.old.unfinished.items progress.old.answered (A.world answerer.old) (W.held writer.old))
        piece.now fault (W.held writer.new)) }
    ensures entries { OnOk result (CountsOn (A.world answerer.old) (A.journals answerer.old)
        (progress.old.unfinished.items ++ piece.now)
        (A.world answerer.new) (A.journals answerer.new) progress.new.unfinished.items) }
    ensures short { OnOk result (length progress.new.unfinished.items ≤ limit) }
    ensures count { OnOk result (progress.new.answered ≤ progress.old.answered + length piece.now) }
    ensures counted { Counts (W.failures writer.old) (W.failures writer.new) (is_write result) }
{
    let mut rest = piece;
    while let Some((line, more)) = split_line(rest) {
        end_line(answerer, writer, progress, limit, line)?;
        rest = more;
    }
    keep(progress, limit, rest)
}
