//! Answers one line: its reply and LF, in one write where the writer takes them whole.

ghost use Rattle.std.specs.Prelude.{◌≡◌, ◌<◌, ◌++◌, ℕ, List, length, IfErr, OnOk, OnErr, is_err};
ghost use Rattle.std.specs.Io.KnownBytes.{Appends};
ghost use Rattle.wl_script.specs.Streams.{Counts};
ghost use Rattle.wl_script.specs.Faults.{is_write};
ghost use Rattle.wl_script.specs.Transcript.{reply_line};
ghost use Rattle.wl_script.specs.inner.Progress.{IsUnanswered};
ghost use Rattle.wl_codec.specs.Reading.{line_reading};
ghost use Rattle.wl_world.specs.Entries.{line_entries};
ghost use Rattle.wl_world.specs.Journals.{Grow};
ghost use Rattle.wl_world.specs.World.{next};

use crate::{Answerer, Failed, Output, ScriptFault};

/// Writes all of the bytes.
pub fn write_all<W: Output>(writer: &mut W, bytes: &[u8]) -> Result<(), Failed>
    ensures ok { OnOk result (Appends (W.held writer.old) (W.held writer.new) bytes.now) }
    // Some of the bytes were taken, but not all.
    ensures err { OnErr result ((part more : List ℕ) × (0 < length more) × (bytes.now ≡ part ++ more)
        × Appends (W.held writer.old) (W.held writer.new) part) }
    ensures counted { Counts (W.failures writer.old) (W.failures writer.new) (is_err result) }
{
    let mut at = 0;
    while at < bytes.len() {
        match writer.write(&bytes[at..]) {
            Ok(0) | Err(_) => return Err(Failed),
            Ok(n) => at += n,
        }
    }
    Ok(())
}

/// Answers one line, after `answered` others.
pub fn answer_line<A: Answerer, W: Output>(
    answerer: &mut A,
    writer: &mut W,
    line: &[u8],
    answered: u64,
) -> Result<(), ScriptFault>
    ensures written { OnOk result
        (Appends (W.held writer.old) (W.held writer.new) (reply_line (A.world answerer.old) line.now)) }
    ensures next { OnOk result (A.world answerer.new ≡ next (A.world answerer.old) line.now) }
    ensures entries { OnOk result (Grow (A.journals answerer.old)
        (λ key. line_entries key (A.world answerer.old) (line_reading line.now)) (A.journals answerer.new)) }
    ensures err { IfErr result (λ fault.
        IsUnanswered answered (A.world answerer.old) line.now (W.held writer.old) fault (W.held writer.new)) }
    ensures counted { Counts (W.failures writer.old) (W.failures writer.new) (is_write result) }
{
    let Ok(mut text) = answerer.answer(line) else {
        return Err(ScriptFault::Memory(answered));
    };
    let Ok(()) = text.push_str("\n") else {
        return Err(ScriptFault::Memory(answered));
    };
    match write_all(writer, text.as_bytes()) {
        Ok(()) => Ok(()),
        Err(Failed) => Err(ScriptFault::Write(answered)),
    }
}
