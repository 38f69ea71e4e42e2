//! A connection whose stream ends without a close frame while another client waits for its lock: the call
//! `serve_dropped` of lists.

use super::frames::add_frames;
use super::loopback::pair;
use super::streams::HELLO;
use crate::lists::show;
use std::alloc::Global;
use std::io::{Read, Write};
use std::net::{Net, Shutdown, TcpListener, TcpStream};
use std::sync::{Mutex, Wait};
use std::test::Fail;
use std::thread::Threads;
use std::{io, thread};
use wl_server::{Gate, ListenFault, Served, serve};
use wl_service::{Client, Service, Ticket};
use wl_test_support::ask;
use wl_types::{Ask, Kind, Mode, Phase};

/// A client beside the server, what it is to ask for, and its ticket.
#[derive(Drop)]
struct Seat {
    client: Client,
    asked: Ask,
    ticket: Option<Ticket>,
}

impl Seat {
    fn ask<R: Wait>(&mut self, rt: &R) {
        if let Ok(ticket) = self.client.request(rt, &self.asked) {
            self.ticket = Some(ticket);
        }
    }

    fn look(&mut self) -> Option<(u64, Phase)> {
        look_at(&mut self.ticket)
    }
}

/// The number of the ticket, and where its request is.
fn look_at(ticket: &mut Option<Ticket>) -> Option<(u64, Phase)> {
    match ticket {
        Some(ticket) => Some((ticket.number(), ticket.look())),
        None => None,
    }
}

/// A gate at which the client asks once the connection has two replies.
struct Asking<'a, R> {
    rt: &'a R,
    seat: Mutex<Seat>,
    then: Mutex<Option<(u64, Phase)>>,
}

impl<R: Wait> Gate for Asking<'_, R> {
    fn enter(&self, _connection: u64) {}

    fn answered(&self, _connection: u64, count: u64) {
        if count == 2 {
            let mut seat = self.seat.lock(self.rt);
            seat.ask(self.rt);
            *self.then.lock(self.rt) = seat.look();
        }
    }
}

/// Shakes hands, says its messages, ends its half of the stream, and reads all replies.
fn speak(stream: TcpStream, frames: &[u8]) -> io::Result<()> {
    let mut stream = stream;
    let mut piece = [0; 1_024];
    stream.write_all(HELLO)?;
    let _ = stream.read(&mut piece)?;
    stream.write_all(frames)?;
    stream.shutdown(Shutdown::Write)?;
    for _ in 0..u64::MAX {
        if stream.read(&mut piece)? == 0 {
            return Ok(());
        }
    }
    Ok(())
}

/// What was served; what the client found when it had asked, and what it finds when the connection has ended.
type Ended = (Result<Served, ListenFault>, Option<((u64, Phase), Phase)>);

pub fn serve_dropped<R>(
    rt: &R,
    alloc: Global,
    service: &Service,
    came: &mut String,
) -> Result<(), Fail>
where
    R: Net<Listener = TcpListener, Stream = TcpStream> + Threads + Wait + Sync,
{
    let asked = ask(alloc, "db", Mode::Exclusive)?;
    let mut frames = Vec::new(alloc);
    add_frames(alloc, &mut frames, "open request")?;
    let (listener, stream) = pair(rt)?;
    let seat = Seat {
        client: service.open(rt, "https://a.test/", Kind::Window)?,
        asked,
        ticket: None,
    };
    let ended = end_one(
        rt,
        alloc,
        service,
        &listener,
        stream,
        seat,
        frames.as_slice(),
    );
    show(came, Some(ended))
}

fn end_one<R>(
    rt: &R,
    alloc: Global,
    service: &Service,
    listener: &TcpListener,
    stream: TcpStream,
    seat: Seat,
    frames: &[u8],
) -> Ended
where
    R: Net<Listener = TcpListener, Stream = TcpStream> + Threads + Wait + Sync,
{
    let gate = Asking {
        rt,
        seat: Mutex::new(seat),
        then: Mutex::new(None),
    };
    let (served, _) = thread::join(
        rt,
        || serve(rt, alloc, listener, 1, &gate, service),
        || speak(stream, frames),
    );
    let Asking {
        rt: _rt,
        seat,
        then,
    } = gate;
    let mut seat = seat.into_inner();
    let found = match (then.into_inner(), seat.look()) {
        (Some(then), Some((_, now))) => Some((then, now)),
        _ => None,
    };
    (served, found)
}
