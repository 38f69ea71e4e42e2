//! Relaying over loopback: the call `relay MANNER PIECE ..` of lists, which answers what was served, what was relayed,
//! and the replies.
//!
//! The reader gives the pieces, one behind another: `open` is a message that opens, `window` the lines of a whole
//! visit, `lf` the end of a line, `bytes` what isn't UTF-8, and a number so many spaces. By its manner a call is
//! `whole`; or the reader is `failing` then; or the writer takes one write, `stuck` then; or `beside` a connection that
//! is broken.

use super::streams::NO_HELLO;
use super::taker::Taker;
use super::{NoHooks, OPEN};
use crate::lists::{rest, show, word};
use std::alloc::{AllocError, Global};
use std::io::{ErrorKind, Read, Write};
use std::net::{Net, TcpListener, TcpStream};
use std::random::RandomSource;
use std::sync::Wait;
use std::test::Fail;
use std::thread::Threads;
use std::{io, str, thread};
use wl_server::{ListenFault, RelayFault, Served, relay, serve};
use wl_service::Service;

/// A window asks for a lock, sees it, and releases it.
const WINDOW: &[u8] = b"{\"agent\":\"a\",\"id\":1,\"op\":\"open\",\"url\":\"https://a.test/\"}
{\"agent\":\"a\",\"id\":2,\"name\":\"db\",\"op\":\"request\"}
{\"agent\":\"a\",\"id\":3,\"op\":\"query\"}
{\"agent\":\"a\",\"id\":4,\"op\":\"poll\"}
{\"agent\":\"a\",\"id\":5,\"op\":\"release\",\"request\":1}
{\"agent\":\"a\",\"id\":6,\"op\":\"query\"}
";

/// A reader that gives these bytes, and then may fail.
#[derive(Drop)]
struct Giver<'a> {
    bytes: &'a [u8],
    fails: bool,
}

impl Read for Giver<'_> {
    fn read(&mut self, buf: &mut [u8]) -> io::Result<usize> {
        if self.fails && self.bytes.is_empty() {
            return Err(io::Error::from(ErrorKind::Other));
        }
        self.bytes.read(buf)
    }
}

/// What was served, and what was relayed.
type Both = (Result<Served, ListenFault>, Result<u64, RelayFault>);

/// Relays to a server of the service.
pub fn relay_pieces<R>(
    rt: &R,
    alloc: Global,
    service: &Service,
    call: &str,
    came: &mut String,
) -> Result<(), Fail>
where
    R: Net<Listener = TcpListener, Stream = TcpStream> + Threads + Wait + RandomSource + Sync,
{
    let mut lines = Vec::new(alloc);
    add_pieces(alloc, &mut lines, rest(call))?;
    relay_bytes(rt, alloc, service, word(call, 1), lines.as_slice(), came)
}

fn relay_bytes<R>(
    rt: &R,
    alloc: Global,
    service: &Service,
    manner: &str,
    bytes: &[u8],
    came: &mut String,
) -> Result<(), Fail>
where
    R: Net<Listener = TcpListener, Stream = TcpStream> + Threads + Wait + RandomSource + Sync,
{
    let mut writer = Taker {
        taken: Vec::new(alloc),
        writes: if manner == "stuck" { 1 } else { usize::MAX },
    };
    let both = relay_beside(rt, alloc, service, manner, bytes, &mut writer)?;
    show(came, Some(both))?;
    came.push_str(str::from_utf8(writer.taken.as_slice()).unwrap_or("not UTF-8"))?;
    Ok(())
}

fn relay_beside<R>(
    rt: &R,
    alloc: Global,
    service: &Service,
    manner: &str,
    bytes: &[u8],
    writer: &mut Taker,
) -> io::Result<Both>
where
    R: Net<Listener = TcpListener, Stream = TcpStream> + Threads + Wait + RandomSource + Sync,
{
    let listener = TcpListener::bind(rt, "127.0.0.1:0")?;
    let before = come_before(rt, &listener, manner)?;
    let stream = guest(rt, &listener)?;
    let reader = Giver {
        bytes,
        fails: manner == "failing",
    };
    Ok(join(
        rt, alloc, service, &listener, before, stream, reader, writer,
    ))
}

/// Answers how many connections came before the one that relays: one that asks for no WebSocket and leaves, or none.
fn come_before<R: Net<Stream = TcpStream>>(
    rt: &R,
    listener: &TcpListener,
    manner: &str,
) -> io::Result<u64> {
    if manner != "beside" {
        return Ok(0);
    }
    guest(rt, listener)?.write_all(NO_HELLO)?;
    Ok(1)
}

/// Serves the connections of the listener, of which so many came before the one that relays.
fn join<R>(
    rt: &R,
    alloc: Global,
    service: &Service,
    listener: &TcpListener,
    before: u64,
    stream: TcpStream,
    reader: Giver<'_>,
    writer: &mut Taker,
) -> Both
where
    R: Net<Listener = TcpListener, Stream = TcpStream> + Threads + Wait + RandomSource + Sync,
{
    thread::join(
        rt,
        || serve(
            rt,
            alloc,
            listener,
            before.saturating_add(1),
            &NoHooks,
            service,
        ),
        || relay(rt, alloc, stream, reader, writer),
    )
}

/// A connection to the listener.
pub fn guest<R: Net<Stream = TcpStream>>(rt: &R, listener: &TcpListener) -> io::Result<TcpStream> {
    TcpStream::connect(rt, listener.local_addr()?)
}

/// A listener, and a connection to it.
pub fn pair<R>(rt: &R) -> io::Result<(TcpListener, TcpStream)>
where
    R: Net<Listener = TcpListener, Stream = TcpStream>,
{
    let listener = TcpListener::bind(rt, "127.0.0.1:0")?;
    let stream = guest(rt, &listener)?;
    Ok((listener, stream))
}

fn add_pieces(alloc: Global, lines: &mut Vec<u8>, words: &str) -> Result<(), AllocError> {
    for word in words.split(' ') {
        add_piece(alloc, lines, word)?;
    }
    Ok(())
}

fn add_piece(alloc: Global, lines: &mut Vec<u8>, word: &str) -> Result<(), AllocError> {
    match word {
        "open" => lines.extend_from_slice(OPEN),
        "window" => lines.extend_from_slice(WINDOW),
        "lf" => lines.push(b'\n').map_err(AllocError::from),
        "bytes" => lines.push(b'\xff').map_err(AllocError::from),
        _ => lines.extend_from_slice(&vec![in alloc; b' '; word.parse::<usize>().unwrap_or(0)]?),
    }
}
