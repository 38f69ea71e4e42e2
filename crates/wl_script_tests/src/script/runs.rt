//! Runs and audits as calls, each with how it ends.

use super::audits::{AGENTS, REPORT};
use super::ends::{AMPLE, Ended, Run, end_of, plain};
use super::fakes::{BAD_JSON, Full, REPLIES, Refusing, SCRIPT, in_pieces, slow_writer};
use crate::lists::part;
use std::alloc::{AllocError, Global};
use wl_core::PlainCore;
use wl_script::{Limits, Reader, ScriptFault, Writer, run, run_lines};
use wl_test_support::NoRandom;
use wl_types::Memory;
use wl_world::Engine;

const FAULTS: [ScriptFault; 5] = [
    ScriptFault::Memory(0),
    ScriptFault::Read(1),
    ScriptFault::Write(2),
    ScriptFault::LineTooLong(3),
    ScriptFault::TooManyTurns(4),
];

/// Adds how a call ends: its result, how many bytes of what is wanted were written, and in how many calls.
///
/// The calls are `run SCRIPT OPTION ..` and `audit SCRIPT OPTION ..`, with `_unseeded` behind the word where the system
/// gives no random words; `refused LINES`, a run that is refused memory after so many lines; `std SCRIPT`, a run over
/// the streams of std, with how many bytes are left to read in place of the calls; and `fault PLACE`, a fault's text.
pub fn do_call(rt: &HostRuntime, came: &mut String, call: &str) -> Result<(), Memory> {
    let (word, behind) = part(call);
    let number = behind.parse::<u64>().unwrap_or(0);
    match word {
        "fault" => add_fault(came, number),
        "refused" => add_ended(came, &ends_after(rt.alloc(), number)?),
        "std" => add_std(rt, came, behind),
        _ => do_script(rt, came, word, behind),
    }
}

fn add_fault(came: &mut String, place: u64) -> Result<(), Memory> {
    if let Some(fault) = FAULTS.get(place as usize) {
        write!(came, "{fault}")?;
    }
    Ok(())
}

fn add_ended(came: &mut String, ended: &Ended) -> Result<(), Memory> {
    write!(
        came,
        "{:?} {:?} {}",
        ended.result, ended.written, ended.calls
    )?;
    Ok(())
}

/// How a run ends that is refused memory after so many lines.
fn ends_after(alloc: Global, left: u64) -> Result<Ended, AllocError> {
    let limits = Limits {
        line: 8,
        turns: 100,
    };
    let mut writer = slow_writer(alloc, AMPLE, AMPLE, Full::Fails)?;
    let inner = Engine::<PlainCore>::new(alloc, ());
    let mut answerer = Refusing { inner, left };
    let mut reader = in_pieces(SCRIPT, 100);
    let result = run_lines(alloc, &mut answerer, &mut reader, &mut writer, limits);
    Ok(end_of(result, &writer, REPLIES))
}

fn add_std(rt: &HostRuntime, came: &mut String, name: &str) -> Result<(), Memory> {
    let script = script(rt.alloc(), name)?;
    let mut reader = Reader::new(script.as_slice());
    let mut writer = Writer::new(Vec::new(rt.alloc()));
    let result = run(rt, &mut reader, &mut writer);
    let left = reader.into_inner().len();
    add_read(came, &writer.into_inner(), result, left)
}

fn add_read(
    came: &mut String,
    written: &[u8],
    ended: Result<u64, ScriptFault>,
    left: usize,
) -> Result<(), Memory> {
    let is_wanted = BAD_JSON.as_bytes().starts_with(written);
    let written = is_wanted.then_some(written.len());
    write!(came, "{ended:?} {written:?} {left}")?;
    Ok(())
}

fn do_script(rt: &HostRuntime, came: &mut String, word: &str, behind: &str) -> Result<(), Memory> {
    let (name, options) = part(behind);
    let script = script(rt.alloc(), name)?;
    let run = read_options(&script, options);
    add_ended(came, &ends(rt, &run, word, wanted(name))?)
}

fn ends(rt: &HostRuntime, run: &Run<'_>, word: &str, wanted: &str) -> Result<Ended, AllocError> {
    let unseeded = NoRandom { alloc: rt.alloc() };
    match word {
        "audit" => run.audit_ends(rt, wanted),
        "audit_unseeded" => run.audit_ends(&unseeded, wanted),
        "run_unseeded" => run.ends(&unseeded, wanted),
        _ => run.ends(rt, wanted),
    }
}

/// The script that a word means: `three`, `agents` or `nothing`; that many letters where it is a number, and with `y`
/// behind that a second line; else the word itself, with an LF for each `/` and a CR for each `%`.
fn script(alloc: Global, name: &str) -> Result<Vec<u8>, AllocError> {
    match name {
        "three" => Vec::from_slice(alloc, SCRIPT),
        "agents" => Vec::from_slice(alloc, AGENTS),
        "nothing" => Ok(Vec::new(alloc)),
        _ => match name.strip_suffix('y').unwrap_or(name).parse::<usize>() {
            Ok(letters) => letters_of(alloc, letters, name.ends_with('y')),
            Err(_) => spelled(alloc, name),
        },
    }
}

fn letters_of(alloc: Global, letters: usize, has_second: bool) -> Result<Vec<u8>, AllocError> {
    let mut script = vec![in alloc; 120; letters]?;
    if has_second {
        script.extend_from_slice(b"\ny\n")?;
    }
    Ok(script)
}

fn spelled(alloc: Global, name: &str) -> Result<Vec<u8>, AllocError> {
    let mut script = Vec::new(alloc);
    for byte in name.bytes() {
        script.push(match byte {
            b'/' => b'\n',
            b'%' => b'\r',
            _ => byte,
        })?;
    }
    Ok(script)
}

/// What the script is wanted to write.
fn wanted(name: &str) -> &'static str {
    match name {
        "three" => REPLIES,
        "agents" => REPORT,
        _ => BAD_JSON,
    }
}

/// The options are `piece=BYTES`, `fails`, `room=BYTES`, `most=BYTES` a write, `none`, for a writer that takes none
/// where it has no room, and `reads=NUMBER`, for lines of at most eight bytes and so many reads.
fn read_options<'a>(script: &'a [u8], options: &str) -> Run<'a> {
    let mut run = plain(script, 100);
    for option in options.split(' ') {
        set_option(&mut run, option);
    }
    run
}

fn set_option(run: &mut Run<'_>, option: &str) {
    let (word, number) = option.split_once('=').unwrap_or((option, ""));
    let number = number.parse::<u32>().unwrap_or(0);
    match word {
        "piece" => run.piece = number as usize,
        "fails" => run.fails = true,
        "room" => run.room = number as usize,
        "most" => run.most = number as usize,
        "none" => run.full = Full::TakesNone,
        "reads" => run.limits = Some((8, number)),
        _ => {}
    }
}
