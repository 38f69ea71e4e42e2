//! The other end of a connection: lines in, replies out.

ghost use Rattle.std.specs.Prelude.{◌≡◌, true, false, Ok, IfErr};
ghost use Rattle.std.specs.Io.KnownBytes.{Keeps, IsAtEnd};
ghost use Rattle.wl_server.specs.Lines.{to_come};
ghost use Rattle.wl_server.specs.Talks.{Exchange, Exchanges};
ghost use Rattle.wl_server.specs.Relays.{Takes, Puts, Stops, Relayed, RelaysOver};

use crate::RelayFault;
use crate::asking::{Asker, NoReply};
use crate::caller::connect;
use crate::lines::{Lines, NoLine};
use crate::writing::put;
use std::alloc::Global;
use std::io::{Read, Write};
use std::random::RandomSource;
use std::sync::Wait;

/// Takes a line, asks it, and writes its reply and LF, after so many replies. Answers false where there is no line.
/// What `line` and `reply` have plays no part.
fn relay_line<R: Wait, A: Asker, I: Read + Drop, O: Write>(
    rt: &R,
    asker: &mut A,
    lines: &mut Lines<I>,
    writer: &mut O,
    line: &mut Vec<u8>,
    reply: &mut Vec<u8>,
    written: u64,
) -> Result<bool, RelayFault>
    ensures went { result ≡ Ok true → ((e : Exchange) × Exchanges Takes Puts A.asks
        ((to_come I.remaining lines.old, O.contents writer.old), asker.old) e
        ((to_come I.remaining lines.new, O.contents writer.new), asker.new)) }
    ensures ended { result ≡ Ok false → IsAtEnd (to_come I.remaining lines.old)
        × Keeps (O.contents writer.old) (O.contents writer.new) }
    ensures stopped { IfErr result (λ fault. Stops A.asks written
        ((to_come I.remaining lines.old, O.contents writer.old), asker.old) fault (O.contents writer.new)) }
{
    match lines.next_line(rt, line) {
        Ok(true) => {}
        Ok(false) => return Ok(false),
        Err(NoLine::TooLong) => return Err(RelayFault::LineTooLong(written)),
        Err(NoLine::Read) => return Err(RelayFault::Read(written)),
        Err(NoLine::Memory) => return Err(RelayFault::Memory),
    }
    match asker.ask(rt, line, reply) {
        Ok(()) => {}
        Err(NoReply::Ended) => return Err(RelayFault::Ended(written)),
        Err(NoReply::Memory) => return Err(RelayFault::Memory),
    }
    let Ok(()) = reply.push(b'\n') else {
        return Err(RelayFault::Memory);
    };
    match put(rt, writer, reply) {
        Ok(()) => Ok(true),
        Err(_) => Err(RelayFault::Write(written)),
    }
}

/// Asks each line of a reader, and writes its reply and LF before the next line is taken. Answers the number of replies
/// written.
fn relay_lines<R: Wait, A: Asker, I: Read + Drop, O: Write>(
    rt: &R,
    alloc: Global,
    asker: &mut A,
    reader: I,
    writer: &mut O,
) -> Result<u64, RelayFault>
    ensures { Relayed A.asks (I.remaining reader) (O.contents writer.old) asker.old result (O.contents writer.new) }
{
    let mut lines = Lines::new(alloc, reader);
    let mut line = Vec::new(alloc);
    let mut reply = Vec::new(alloc);
    let mut written: u64 = 0;
    for _ in rt.forever() {
        match relay_line(
            rt, asker, &mut lines, writer, &mut line, &mut reply, written,
        ) {
            Ok(true) => {}
            Ok(false) => return Ok(written),
            Err(fault) => return Err(fault),
        }
        written = written.saturating_add(1);
    }
    unreachable!()
}

/// Shakes hands as a client, and sends each line of the reader as one text message, or as a binary one where it isn't
/// UTF-8; its reply and LF are written, and flushed, before the next line is read. After the last line it sends a close
/// frame and reads to the end. Answers the number of replies written.
///
/// A line has at most 65,536 bytes before its LF; a last one without LF is a line if it has a byte.
pub fn relay<R: Wait + RandomSource, S: Read + Write + Drop, I: Read + Drop, O: Write>(
    rt: &R,
    alloc: Global,
    stream: S,
    reader: I,
    writer: &mut O,
) -> Result<u64, RelayFault>
    ensures { RelaysOver S.remaining S.contents (I.remaining reader) (O.contents writer.old) result
        (O.contents writer.new) }
{
    let mut caller = match connect(rt, alloc, stream) {
        Ok(caller) => caller,
        Err(fault) => return Err(fault),
    };
    let relayed = relay_lines(rt, alloc, &mut caller, reader, writer);
    if relayed.is_ok() {
        caller.close(rt);
    }
    relayed
}
