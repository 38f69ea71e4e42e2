//! More connections than may run at once, and none: the calls `serve_crowd COUNT` and `serve_nobody COUNT` of lists.

use super::NoHooks;
use super::loopback::guest;
use super::streams::HELLO;
use crate::lists::{number, show};
use std::alloc::Global;
use std::io::{Read, Write};
use std::net::{Net, TcpListener, TcpStream};
use std::sync::Wait;
use std::test::Fail;
use std::thread::Threads;
use std::time::Duration;
use std::{io, thread};
use wl_server::serve;
use wl_service::Service;

/// Whether the server shakes hands within this time.
fn is_greeted(stream: &mut TcpStream, milliseconds: u64) -> bool {
    let mut head = [0; 12];
    if stream
        .set_read_timeout(Some(Duration::from_millis(milliseconds)))
        .is_err()
    {
        return false;
    }
    stream.read_exact(&mut head).is_ok() && head == *b"HTTP/1.1 101"
}

/// Whether all of the guests are greeted.
fn are_greeted(guests: &mut Vec<TcpStream>) -> bool {
    for guest in guests {
        if !is_greeted(guest, 20_000) {
            return false;
        }
    }
    true
}

/// Whether all but the last are greeted at once, and the last when another has left.
fn one_waits(guests: Vec<TcpStream>) -> bool {
    let mut guests = guests;
    let Some(mut last) = guests.pop() else {
        return false;
    };
    if !are_greeted(&mut guests) || is_greeted(&mut last, 300) {
        return false;
    }
    drop(guests.pop());
    is_greeted(&mut last, 20_000)
}

/// So many connections, each of which has said its hello.
fn come<R: Net<Stream = TcpStream>>(
    rt: &R,
    alloc: Global,
    listener: &TcpListener,
    count: usize,
) -> io::Result<Vec<TcpStream>> {
    let mut guests = Vec::new(alloc);
    for _ in 0..count {
        guests.push(say_hello(rt, listener)?)?;
    }
    Ok(guests)
}

fn say_hello<R: Net<Stream = TcpStream>>(rt: &R, listener: &TcpListener) -> io::Result<TcpStream> {
    let mut guest = guest(rt, listener)?;
    guest.write_all(HELLO)?;
    Ok(guest)
}

/// Serves so many that come at once, and tells what was served, and whether the last had to wait.
pub fn serve_crowd<R>(
    rt: &R,
    alloc: Global,
    service: &Service,
    call: &str,
    came: &mut String,
) -> Result<(), Fail>
where
    R: Net<Listener = TcpListener, Stream = TcpStream> + Threads + Wait + Sync,
{
    let count = number(call, 1);
    let listener = TcpListener::bind(rt, "127.0.0.1:0")?;
    let guests = come(rt, alloc, &listener, count)?;
    let ended = thread::join(
        rt,
        || serve(rt, alloc, &listener, count as u64, &NoHooks, service),
        || one_waits(guests),
    );
    show(came, Some(ended))
}

/// Serves so many where nobody comes, and the listener doesn't wait.
pub fn serve_nobody<R>(
    rt: &R,
    alloc: Global,
    service: &Service,
    call: &str,
    came: &mut String,
) -> Result<(), Fail>
where
    R: Net<Listener = TcpListener, Stream = TcpStream> + Threads + Wait + Sync,
{
    let listener = TcpListener::bind(rt, "127.0.0.1:0")?;
    listener.set_nonblocking(true)?;
    let count = number(call, 1) as u64;
    let served = serve(rt, alloc, &listener, count, &NoHooks, service);
    show(came, Some(served))
}
