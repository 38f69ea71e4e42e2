//! What a gate is told, and whether connections go on at once, over loopback: the calls `serve_gated` and
//! `serve_waiting` of lists.

use super::OPEN;
use super::hosts::relay_lines;
use super::loopback::{guest, pair};
use crate::flags::comes;
use crate::lists::show;
use std::alloc::Global;
use std::net::{Net, TcpListener, TcpStream};
use std::random::RandomSource;
use std::sync::Wait;
use std::sync::atomic::{AtomicBool, AtomicU64, AtomicUsize, Ordering};
use std::test::Fail;
use std::thread;
use std::thread::Threads;
use wl_server::{Gate, ListenFault, RelayFault, Served, serve};
use wl_service::Service;

const TWO_LINES: &[u8] = b"{\"id\":1,\"op\":\"open\",\"url\":\"https://a.test/\"}
{\"id\":2,\"op\":\"poll\"}
";

/// How many numbers a notebook has room for.
const NOTES: usize = 9;

/// A gate that writes down what it is told, one number behind another: a connection that enters, or a connection and
/// how many replies it has had.
#[derive(Drop)]
struct Notebook {
    told: [AtomicU64; NOTES],
    written: AtomicUsize,
}

impl Notebook {
    fn new() -> Notebook {
        let blank = || AtomicU64::new(0);
        Notebook {
            told: [
                blank(),
                blank(),
                blank(),
                blank(),
                blank(),
                blank(),
                blank(),
                blank(),
                blank(),
            ],
            written: AtomicUsize::new(0),
        }
    }

    fn write(&self, number: u64) {
        if let Some(place) = self.told.get(self.written.fetch_add(1, Ordering::SeqCst)) {
            place.store(number, Ordering::SeqCst);
        }
    }

    fn notes(&self) -> [u64; NOTES] {
        let mut notes = [0; NOTES];
        for (note, place) in notes.iter_mut().zip(self.told.iter()) {
            *note = place.load(Ordering::SeqCst);
        }
        notes
    }
}

impl Gate for Notebook {
    fn enter(&self, connection: u64) {
        self.write(connection);
    }

    fn answered(&self, connection: u64, count: u64) {
        self.write(connection);
        self.write(count);
    }
}

/// What was relayed over each of two connections.
type Relayed = (Result<u64, RelayFault>, Result<u64, RelayFault>);

/// What was served, what was relayed, and what the gate was told, with 0 behind it.
type Told = (Result<Served, ListenFault>, Relayed, [u64; NOTES]);

/// Serves two connections, one behind the other.
pub fn serve_gated<R>(
    rt: &R,
    alloc: Global,
    service: &Service,
    came: &mut String,
) -> Result<(), Fail>
where
    R: Net<Listener = TcpListener, Stream = TcpStream> + Threads + Wait + RandomSource + Sync,
{
    let (listener, first) = pair(rt)?;
    show(came, Some(serve_two(rt, alloc, service, &listener, first)))
}

fn serve_two<R>(
    rt: &R,
    alloc: Global,
    service: &Service,
    listener: &TcpListener,
    first: TcpStream,
) -> Told
where
    R: Net<Listener = TcpListener, Stream = TcpStream> + Threads + Wait + RandomSource + Sync,
{
    let gate = Notebook::new();
    let (served, relayed) = thread::join(
        rt,
        || serve(rt, alloc, listener, 2, &gate, service),
        || relay_twice(rt, alloc, first, listener),
    );
    (served, relayed, gate.notes())
}

/// The first has ended, with all that its thread told, before the second connects.
fn relay_twice<R>(rt: &R, alloc: Global, first: TcpStream, listener: &TcpListener) -> Relayed
where
    R: Net<Stream = TcpStream> + Wait + RandomSource,
{
    let first = relay_lines(rt, alloc, first, TWO_LINES);
    let second = match guest(rt, listener) {
        Ok(stream) => relay_lines(rt, alloc, stream, OPEN),
        Err(_) => Ok(0),
    };
    (first, second)
}

/// A gate at which the first connection waits, behind its first reply, until the second was answered.
#[derive(Drop)]
struct Waiting {
    is_answered: AtomicBool,
    in_time: AtomicBool,
}

impl Gate for Waiting {
    fn enter(&self, _connection: u64) {}

    fn answered(&self, connection: u64, _count: u64) {
        if connection == 2 {
            self.is_answered.store(true, Ordering::SeqCst);
        } else {
            self.in_time
                .store(comes(&self.is_answered), Ordering::SeqCst);
        }
    }
}

/// Serves two connections at once, and tells whether the first waited no longer than it should.
pub fn serve_waiting<R>(
    rt: &R,
    alloc: Global,
    service: &Service,
    came: &mut String,
) -> Result<(), Fail>
where
    R: Net<Listener = TcpListener, Stream = TcpStream> + Threads + Wait + RandomSource + Sync,
{
    let (listener, one) = pair(rt)?;
    let two = guest(rt, &listener)?;
    show(
        came,
        Some(serve_both(rt, alloc, service, &listener, one, two)),
    )
}

fn serve_both<R>(
    rt: &R,
    alloc: Global,
    service: &Service,
    listener: &TcpListener,
    one: TcpStream,
    two: TcpStream,
) -> (Result<Served, ListenFault>, Relayed, bool)
where
    R: Net<Listener = TcpListener, Stream = TcpStream> + Threads + Wait + RandomSource + Sync,
{
    let gate = Waiting {
        is_answered: AtomicBool::new(false),
        in_time: AtomicBool::new(false),
    };
    let (served, relayed) = thread::join(
        rt,
        || serve(rt, alloc, listener, 2, &gate, service),
        || relay_both(rt, alloc, one, two),
    );
    (served, relayed, gate.in_time.load(Ordering::SeqCst))
}

fn relay_both<R>(rt: &R, alloc: Global, one: TcpStream, two: TcpStream) -> Relayed
where
    R: Threads + Wait + RandomSource + Sync,
{
    thread::join(
        rt,
        || relay_lines(rt, alloc, one, OPEN),
        || relay_lines(rt, alloc, two, OPEN),
    )
}
