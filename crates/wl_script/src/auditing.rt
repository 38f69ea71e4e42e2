//! Audits a script: runs it over books, and says for each manager whether its journal is legal.

ghost use Rattle.std.specs.Prelude.{◌≡◌, ◌+◌, ◌<◌, ◌≤◌, ◌^◌, true, All, codes, length, IfOk, IfErr, IfSome};
ghost use Rattle.std.specs.Prelude.{string_bytes};
ghost use Rattle.serde_json.specs.Data.{member, object, string};
ghost use Rattle.serde_json.specs.View.{view};
ghost use Rattle.wl_origin.specs.Origin.{tuple_text};
ghost use Rattle.wl_script.specs.Audits.{Audited, CountsDone, LeavesAudit, WritesOrigins, audit_line};
ghost use Rattle.wl_script.specs.Audits.{audit_members, audit_value};
ghost use Rattle.wl_script.specs.inner.Audits.{LeavesOrigins, IsUnwritten, WritesNext, counts_of};
ghost use Rattle.wl_script.specs.Faults.{is_read, is_write, IsTooManyTurns};
ghost use Rattle.wl_script.specs.Leaves.{GaveBytes};
ghost use Rattle.wl_script.specs.Lines.{lines};
ghost use Rattle.wl_script.specs.Streams.{Counts, GrewBy, GrewAtMostBy};

use crate::replying::write_all;
use crate::running::{LIMITS, run_lines};
use crate::{Discard, Failed, Input, Output, ScriptFault};
use serde_json::{Value, json};
use std::alloc::Global;
use std::hash::RandomState;
use std::random::RandomSource;
use wl_core::LockCore;
use wl_index::{IndexCore, random_seed};
use wl_journal::{AuditFault, Book, replay};
use wl_origin::ManagerKey;
use wl_types::{Memory, Numbers};
use wl_world::Engine;

/// Whether the book's entries are legal, by a replay from its base.
fn is_legal_from_base(book: &Book<IndexCore>) -> Result<bool, Memory>
    ensures { IfOk result (λ legal. legal ≡ true) }
{
    match wl_journal::audit(book.base(), book.entries()) {
        Ok(()) => Ok(true),
        Err(AuditFault::Illegal(_)) => Ok(false),
        Err(AuditFault::Memory) => Err(Memory),
    }
}

/// Whether the book's entries are legal. They always are: the book's type says so. Those of a book that was never cut,
/// as a script's, are replayed on a core of the book's own kind, since a plain one goes over all that is live. Where
/// that finds a wrong reply the base decides, since the book may have begun with other numbers.
fn is_legal(alloc: Global, seed: RandomState, book: &Book<IndexCore>) -> Result<bool, Memory>
    ensures { IfOk result (λ legal. legal ≡ true) }
{
    let next = Numbers {
        agent: 1,
        request: 1,
        signal: 1,
    };
    if book.total() == book.len() as u64 {
        match replay(IndexCore::make(alloc, seed, next), book.entries()) {
            Ok(()) => return Ok(true),
            Err(AuditFault::Illegal(_)) => {}
            Err(AuditFault::Memory) => return Err(Memory),
        }
    }
    is_legal_from_base(book)
}

/// The JSON value of the line of an origin's default bucket.
fn value_of_default(
    alloc: Global,
    entries: u64,
    legal: bool,
    origin: String,
) -> Result<Value, Memory>
    ensures { IfOk result (λ value. view value ≡ object (audit_members entries legal (string_bytes origin))) }
{
    Ok(json!(in alloc; {"entries": entries, "legal": legal, "origin": origin})?)
}

/// The JSON value of the line of another bucket.
fn value_of_bucket(
    alloc: Global,
    bucket: String,
    entries: u64,
    legal: bool,
    origin: String,
) -> Result<Value, Memory>
    ensures { IfOk result (λ value. view value
        ≡ object (member (codes "bucket") (string (string_bytes bucket))
        (audit_members entries legal (string_bytes origin)))) }
{
    Ok(json!(in alloc; {"bucket": bucket, "entries": entries, "legal": legal, "origin": origin})?)
}

/// The JSON value of a manager's line.
fn value_of(alloc: Global, key: &ManagerKey, entries: u64, legal: bool) -> Result<Value, Memory>
    ensures { IfOk result (λ value. view value
        ≡ audit_value key.now.bucket entries legal (tuple_text key.now.origin)) }
{
    let origin = key.origin.text(alloc)?;
    if key.bucket.is_default() {
        return value_of_default(alloc, entries, legal, origin);
    }
    let bucket = String::from_str(alloc, key.bucket.as_str())?;
    value_of_bucket(alloc, bucket, entries, legal, origin)
}

/// A manager's line.
fn line_of(
    alloc: Global,
    seed: RandomState,
    key: &ManagerKey,
    book: &Book<IndexCore>,
) -> Result<String, Memory>
    ensures { IfOk result (λ line. string_bytes line ≡ audit_line key.now book.now.total) }
{
    let legal = is_legal(alloc, seed, book)?;
    let value = value_of(alloc, key, book.total(), legal)?;
    let mut line = value.to_string(alloc)?;
    line.push_str("\n")?;
    Ok(line)
}

/// Writes the line of one manager, if something was recorded there, after `lines` lines of the script and those of
/// `written` other managers; says how many were written then.
fn write_origin<W: Output>(
    alloc: Global,
    seed: RandomState,
    writer: &mut W,
    key: &ManagerKey,
    book: &Book<IndexCore>,
    lines: u64,
    written: u64,
) -> Result<u64, ScriptFault>
    requires { written + 1 < 2 ^ 64 }
    ensures ok { IfOk result (λ n. WritesNext written (key.now, book.now.total) n (W.held writer.old)
        (W.held writer.new)) }
    ensures err { IfErr result (λ fault.
        IsUnwritten lines written (key.now, book.now.total) (W.held writer.old) fault (W.held writer.new)) }
    ensures counted { Counts (W.failures writer.old) (W.failures writer.new) (is_write result) }
{
    if book.total() == 0 {
        return Ok(written);
    }
    let Ok(line) = line_of(alloc, seed, key, book) else {
        return Err(ScriptFault::Memory(lines));
    };
    match write_all(writer, line.as_bytes()) {
        Ok(()) => Ok(written + 1),
        Err(Failed) => Err(ScriptFault::Write(written)),
    }
}

/// Writes the lines of all managers where something was recorded, and says how many.
fn write_origins<W: Output>(
    alloc: Global,
    seed: RandomState,
    writer: &mut W,
    books: &[(ManagerKey, Book<IndexCore>)],
    lines: u64,
) -> Result<u64, ScriptFault>
    ensures ok { IfOk result (λ n. WritesOrigins (counts_of books.now) n (W.held writer.old) (W.held writer.new)) }
    ensures err { IfErr result (λ fault.
        LeavesOrigins lines (counts_of books.now) fault (W.held writer.old) (W.held writer.new)) }
    ensures counted { Counts (W.failures writer.old) (W.failures writer.new) (is_write result) }
{
    let mut written = 0;
    for (key, book) in books {
        written = write_origin(alloc, seed, writer, key, book, lines, written)?;
    }
    Ok(written)
}

/// Runs a script over books, without its replies; then writes a line for each manager in the order of their keys, and
/// answers their number. A line says how many commands the manager's journal records, and that it is legal, and begins
/// with its bucket where that isn't `default`. Limits are those of `run`.
///
/// A fault carries the lines of the script that were done, and `Write` the managers that were written whole. Before the
/// end of the script nothing is written. A bucket of an origin has a line once an agent has opened there; opaque
/// origins have none.
pub fn audit<S: RandomSource + AllocGlobal, R: Input, W: Output>(
    rt: &S,
    reader: &mut R,
    writer: &mut W,
) -> Result<u64, ScriptFault>
    ensures ok { IfOk result (λ n. IfSome (R.rest reader.old) (λ input. All (λ line. length line ≤ 65536) (lines input)
        × Audited (lines input) n (W.held writer.old) (W.held writer.new))) }
    ensures err { IfErr result (λ fault. IfSome (R.rest reader.old) (λ input.
        LeavesAudit 65536 (lines input) fault (W.held writer.old) (W.held writer.new))) }
    ensures at_once { IfErr result (λ fault. IfSome (R.rest reader.old) (λ input.
        CountsDone (lines input) fault (R.rest reader.old) (R.rest reader.new))) }
    ensures read { Counts (R.failures reader.old) (R.failures reader.new) (is_read result) }
    ensures write { Counts (W.failures writer.old) (W.failures writer.new) (is_write result) }
    ensures reads { GrewAtMostBy (R.reads reader.old) (R.reads reader.new) 4294967296 }
    ensures turns { IsTooManyTurns result → GrewBy (R.reads reader.old) (R.reads reader.new) 4294967296
        × GaveBytes (R.rest reader.old) (R.rest reader.new) 4294967296 }
{
    let Ok(seed) = random_seed(rt) else {
        return Err(ScriptFault::Memory(0));
    };
    let alloc = rt.alloc();
    let mut engine = Engine::<Book<IndexCore>>::new(alloc, seed);
    let lines = run_lines(alloc, &mut engine, reader, &mut Discard, LIMITS)?;
    let Ok(books) = engine.into_cores() else {
        return Err(ScriptFault::Memory(lines));
    };
    write_origins(alloc, seed, writer, &books, lines)
}
