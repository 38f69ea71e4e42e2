//! Runs a script from its first read to its end.

ghost use Rattle.std.specs.Prelude.{◌≡◌, ◌≤◌, ◌<◌, ◌+◌, ◌^◌, length, IfOk, IfErr, IfSome, OnOk};
ghost use Rattle.std.specs.Io.KnownBytes.{Appends};
ghost use Rattle.wl_world.specs.Entries.{script_entries};
ghost use Rattle.wl_world.specs.Journals.{Grow};
ghost use Rattle.wl_world.specs.World.{opening};
ghost use Rattle.wl_script.specs.Streams.{Counts, GrewBy, GrewAtMostBy};
ghost use Rattle.wl_script.specs.Faults.{is_read, is_write, IsTooManyTurns};
ghost use Rattle.wl_script.specs.Lines.{lines, last_line};
ghost use Rattle.wl_script.specs.Transcript.{transcript, after};
ghost use Rattle.wl_script.specs.Leaves.{Answered, Leaves, AnswersAtOnce, GaveBytes};
ghost use Rattle.wl_script.specs.inner.Progress.{moment};
ghost use Rattle.wl_script.specs.inner.Progress.{BreaksAtEnd};

use crate::feeding::{Progress, feed};
use crate::replying::answer_line;
use crate::{Answerer, Failed, Input, Limits, Output, ScriptFault};
use std::alloc::Global;
use std::random::RandomSource;
use wl_index::{IndexCore, random_seed};
use wl_types::Memory;
use wl_world::Engine;

/// The bytes of one read.
const READ: usize = 65_536;

/// The limits of a script that names none.
pub const LIMITS: Limits = Limits {
    line: 65_536,
    turns: 4_294_967_296,
};

/// Answers a last line that has no LF, if there is one, and says how many lines were answered in all.
fn finish<A: Answerer, W: Output>(
    answerer: &mut A,
    writer: &mut W,
    progress: &Progress,
) -> Result<u64, ScriptFault>
    requires { progress.now.answered + 1 < 2 ^ 64 }
    ensures count { IfOk result (λ n. n ≡ progress.now.answered + length (last_line progress.now.unfinished.items)) }
    ensures written { OnOk result (Appends (W.held writer.old) (W.held writer.new)
        (transcript (A.world answerer.old) (last_line progress.now.unfinished.items))) }
    ensures world { OnOk result (A.world answerer.new
        ≡ after (A.world answerer.old) (last_line progress.now.unfinished.items)) }
    ensures entries { OnOk result (Grow (A.journals answerer.old)
        (λ key. script_entries key (A.world answerer.old) (last_line progress.now.unfinished.items))
        (A.journals answerer.new)) }
    ensures err { IfErr result (λ fault. BreaksAtEnd
        (moment progress.now.unfinished.items progress.now.answered (A.world answerer.old) (W.held writer.old))
        fault (W.held writer.new)) }
    ensures counted { Counts (W.failures writer.old) (W.failures writer.new) (is_write result) }
{
    if progress.unfinished.is_empty() {
        return Ok(progress.answered);
    }
    answer_line(answerer, writer, &progress.unfinished, progress.answered)?;
    Ok(progress.answered + 1)
}

/// Reads to the end of the input, each time into `buf`, and answers the lines.
fn run_reads<A: Answerer, R: Input, W: Output>(
    alloc: Global,
    answerer: &mut A,
    reader: &mut R,
    writer: &mut W,
    limits: Limits,
    buf: &mut [u8],
) -> Result<u64, ScriptFault>
    requires turns { limits.turns ≤ 2 ^ 32 }
    requires some { 0 < length buf.old }
    requires one_read { length buf.old ≤ 65536 }
    ensures ok { IfOk result (λ n. IfSome (R.rest reader.old) (λ input. (n ≡ length (lines input))
        × Answered limits.line (A.world answerer.old) (lines input) (W.held writer.old) (W.held writer.new))) }
    ensures world { OnOk result (IfSome (R.rest reader.old) (λ input.
        A.world answerer.new ≡ after (A.world answerer.old) (lines input))) }
    ensures entries { OnOk result (IfSome (R.rest reader.old) (λ input. Grow (A.journals answerer.old)
        (λ key. script_entries key (A.world answerer.old) (lines input)) (A.journals answerer.new))) }
    ensures err { IfErr result (λ fault. IfSome (R.rest reader.old) (λ input.
        Leaves limits.line (A.world answerer.old) (lines input) fault (W.held writer.old) (W.held writer.new))) }
    ensures at_once { IfErr result (λ fault. AnswersAtOnce fault (R.rest reader.old) (R.rest reader.new)) }
    ensures read { Counts (R.failures reader.old) (R.failures reader.new) (is_read result) }
    ensures write { Counts (W.failures writer.old) (W.failures writer.new) (is_write result) }
    ensures reads { GrewAtMostBy (R.reads reader.old) (R.reads reader.new) limits.turns }
    ensures turns { IsTooManyTurns result → GrewBy (R.reads reader.old) (R.reads reader.new) limits.turns
        × GaveBytes (R.rest reader.old) (R.rest reader.new) limits.turns }
{
    let mut progress = Progress {
        unfinished: Vec::new(alloc),
        answered: 0,
    };
    for turn in 0..limits.turns {
        match reader.read(buf) {
            Ok(0) => return finish(answerer, writer, &progress),
            Ok(n) => feed(answerer, writer, &mut progress, limits.line, &buf[..n])?,
            Err(Failed) => return Err(ScriptFault::Read(progress.answered)),
        }
    }
    Err(ScriptFault::TooManyTurns(progress.answered))
}

/// Runs a script in the world that `answerer` has: each line of the input is answered by one line of output, as
/// soon as its LF was read. Answers the number of lines.
///
/// How the reader cuts the input into reads plays no part in what is written. Lines that ended in the read before a
/// fault may be unanswered; all that ended earlier are answered.
pub fn run_lines<A: Answerer, R: Input, W: Output>(
    alloc: Global,
    answerer: &mut A,
    reader: &mut R,
    writer: &mut W,
    limits: Limits,
) -> Result<u64, ScriptFault>
    requires { limits.turns ≤ 2 ^ 32 }
    // All lines were answered, and none is longer than the limit.
    ensures ok { IfOk result (λ n. IfSome (R.rest reader.old) (λ input. (n ≡ length (lines input))
        × Answered limits.line (A.world answerer.old) (lines input) (W.held writer.old) (W.held writer.new))) }
    ensures world { OnOk result (IfSome (R.rest reader.old) (λ input.
        A.world answerer.new ≡ after (A.world answerer.old) (lines input))) }
    ensures entries { OnOk result (IfSome (R.rest reader.old) (λ input. Grow (A.journals answerer.old)
        (λ key. script_entries key (A.world answerer.old) (lines input)) (A.journals answerer.new))) }
    // As many lines were answered as the fault says.
    ensures err { IfErr result (λ fault. IfSome (R.rest reader.old) (λ input.
        Leaves limits.line (A.world answerer.old) (lines input) fault (W.held writer.old) (W.held writer.new))) }
    ensures at_once { IfErr result (λ fault. AnswersAtOnce fault (R.rest reader.old) (R.rest reader.new)) }
    // A Read comes just where the reader failed, and a Write just where the writer did.
    ensures read { Counts (R.failures reader.old) (R.failures reader.new) (is_read result) }
    ensures write { Counts (W.failures writer.old) (W.failures writer.new) (is_write result) }
    ensures reads { GrewAtMostBy (R.reads reader.old) (R.reads reader.new) limits.turns }
    // Too many reads are as many as the limit says, and each gave a byte.
    ensures turns { IsTooManyTurns result → GrewBy (R.reads reader.old) (R.reads reader.new) limits.turns
        × GaveBytes (R.rest reader.old) (R.rest reader.new) limits.turns }
{
    let Ok(mut buf) = read_buffer(alloc) else {
        return Err(ScriptFault::Memory(0));
    };
    run_reads(alloc, answerer, reader, writer, limits, &mut buf)
}

/// Runs a script from the opening world, within these limits. `Memory` comes too where the system gives no random
/// words.
pub fn run_with<S: RandomSource + AllocGlobal, R: Input, W: Output>(
    rt: &S,
    reader: &mut R,
    writer: &mut W,
    limits: Limits,
) -> Result<u64, ScriptFault>
    requires { limits.turns ≤ 2 ^ 32 }
    ensures ok { IfOk result (λ n. IfSome (R.rest reader.old) (λ input. (n ≡ length (lines input))
        × Answered limits.line opening (lines input) (W.held writer.old) (W.held writer.new))) }
    ensures err { IfErr result (λ fault. IfSome (R.rest reader.old) (λ input.
        Leaves limits.line opening (lines input) fault (W.held writer.old) (W.held writer.new))) }
    ensures at_once { IfErr result (λ fault. AnswersAtOnce fault (R.rest reader.old) (R.rest reader.new)) }
    ensures read { Counts (R.failures reader.old) (R.failures reader.new) (is_read result) }
    ensures write { Counts (W.failures writer.old) (W.failures writer.new) (is_write result) }
    ensures reads { GrewAtMostBy (R.reads reader.old) (R.reads reader.new) limits.turns }
    ensures turns { IsTooManyTurns result → GrewBy (R.reads reader.old) (R.reads reader.new) limits.turns
        × GaveBytes (R.rest reader.old) (R.rest reader.new) limits.turns }
{
    let Ok(seed) = random_seed(rt) else {
        return Err(ScriptFault::Memory(0));
    };
    let mut engine = Engine::<IndexCore>::new(rt.alloc(), seed);
    run_lines(rt.alloc(), &mut engine, reader, writer, limits)
}

/// Runs a script from the opening world. A line has at most 65,536 bytes, and at most 4,294,967,296 reads are made.
pub fn run<S: RandomSource + AllocGlobal, R: Input, W: Output>(
    rt: &S,
    reader: &mut R,
    writer: &mut W,
) -> Result<u64, ScriptFault>
    ensures ok { IfOk result (λ n. IfSome (R.rest reader.old) (λ input. (n ≡ length (lines input))
        × Answered 65536 opening (lines input) (W.held writer.old) (W.held writer.new))) }
    ensures err { IfErr result (λ fault. IfSome (R.rest reader.old) (λ input.
        Leaves 65536 opening (lines input) fault (W.held writer.old) (W.held writer.new))) }
    ensures at_once { IfErr result (λ fault. AnswersAtOnce fault (R.rest reader.old) (R.rest reader.new)) }
    ensures read { Counts (R.failures reader.old) (R.failures reader.new) (is_read result) }
    ensures write { Counts (W.failures writer.old) (W.failures writer.new) (is_write result) }
    ensures reads { GrewAtMostBy (R.reads reader.old) (R.reads reader.new) 4294967296 }
    ensures turns { IsTooManyTurns result → GrewBy (R.reads reader.old) (R.reads reader.new) 4294967296
        × GaveBytes (R.rest reader.old) (R.rest reader.new) 4294967296 }
{
    run_with(rt, reader, writer, LIMITS)
}

/// Room for one read.
fn read_buffer(alloc: Global) -> Result<Vec<u8>, Memory>
    ensures { IfOk result (λ buf. length buf.items ≡ 65536) }
{
    Ok(vec![in alloc; 0; READ]?)
}
