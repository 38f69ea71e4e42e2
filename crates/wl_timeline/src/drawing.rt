//! Draws a script: runs it, follows its requests, and writes the picture.

ghost use Rattle.std.specs.Prelude.{◌≡◌, ◌≤◌, ◌-◌, All, length, IfOk, IfErr, IfSome};
ghost use Rattle.wl_script.specs.Audits.{CountsDone};
ghost use Rattle.wl_script.specs.Faults.{is_read, is_write, IsTooManyTurns};
ghost use Rattle.wl_script.specs.Leaves.{GaveBytes};
ghost use Rattle.wl_script.specs.Lines.{lines};
ghost use Rattle.wl_script.specs.Streams.{Counts, GrewBy, GrewAtMostBy};
ghost use Rattle.wl_timeline.specs.Timelines.{LeavesTimeline};
ghost use Rattle.wl_timeline.specs.inner.Timelines.{IsUnwritten};

use crate::following::Follower;
use crate::history::History;
use crate::svg::draw;
use std::alloc::Global;
use std::random::RandomSource;
use wl_index::random_seed;
use wl_script::{Discard, Failed, Input, LIMITS, Output, ScriptFault, run_lines, write_all};

/// Draws the history of so many lines, and writes the picture. Answers the number of lines.
fn write_picture<W: Output>(
    alloc: Global,
    writer: &mut W,
    history: &History,
    lines: u64,
) -> Result<u64, ScriptFault>
    ensures ok { IfOk result (λ n. n ≡ lines) }
    ensures err { IfErr result (λ fault. IsUnwritten lines fault (W.held writer.old) (W.held writer.new)) }
    ensures counted { Counts (W.failures writer.old) (W.failures writer.new) (is_write result) }
{
    let Ok(picture) = draw(alloc, history) else {
        return Err(ScriptFault::Memory(lines));
    };
    match write_all(writer, picture.as_bytes()) {
        Ok(()) => Ok(lines),
        Err(Failed) => Err(ScriptFault::Write(lines)),
    }
}

/// Runs a script without its replies, and then writes one SVG of what became of its requests. Answers the number of
/// lines. Limits are those of `wl_script::run`.
///
/// A fault carries the lines of the script that were done. Before the end of the script nothing is written, so that a
/// script that ends early has no picture.
pub fn timeline<S: RandomSource + AllocGlobal, R: Input, W: Output>(
    rt: &S,
    reader: &mut R,
    writer: &mut W,
) -> Result<u64, ScriptFault>
    ensures ok { IfOk result (λ n. IfSome (R.rest reader.old) (λ input. (n ≡ length (lines input))
        × All (λ line. length line ≤ 65536) (lines input))) }
    ensures err { IfErr result (λ fault. IfSome (R.rest reader.old) (λ input.
        LeavesTimeline 65536 (lines input) fault (W.held writer.old) (W.held writer.new))) }
    ensures at_once { IfErr result (λ fault. IfSome (R.rest reader.old) (λ input.
        CountsDone (lines input) fault (R.rest reader.old) (R.rest reader.new))) }
    ensures read { Counts (R.failures reader.old) (R.failures reader.new) (is_read result) }
    ensures write { Counts (W.failures writer.old) (W.failures writer.new) (is_write result) }
    ensures reads { GrewAtMostBy (R.reads reader.old) (R.reads reader.new) 4294967296 }
    ensures turns { IsTooManyTurns result → GrewBy (R.reads reader.old) (R.reads reader.new) 4294967296
        × GaveBytes (R.rest reader.old) (R.rest reader.new) 4294967296 }
{
    let Ok(seed) = random_seed(rt) else {
        return Err(ScriptFault::Memory(0));
    };
    let alloc = rt.alloc();
    let mut follower = Follower::new(alloc, seed);
    let lines = run_lines(alloc, &mut follower, reader, &mut Discard, LIMITS)?;
    write_picture(alloc, writer, &follower.into_history(), lines)
}
