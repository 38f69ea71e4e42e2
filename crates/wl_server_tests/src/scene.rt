//! A service with its clients and their tickets, and the calls of lists that are theirs.
//!
//! Clients and tickets are called by their places, from 1 in the order in which they came; those behind a client that
//! ends move up. The calls are `open KIND URL`, which answers the client's number; `open_in KIND BUCKET URL` and
//! `enter KIND BUCKET URL`, which answer it too, and lend their bucket or hand it over; `open_heard window PLACE URL`,
//! which gives the client a bell; `fill COUNT URL`, which opens that many workers and answers the last one's;
//! `request CLIENT NAME SIGNAL`, which answers the request's number, and `look TICKET`; `ask_often CLIENT NAME`, which
//! requests more than is listed; `release CLIENT TICKET`; `signal CLIENT` and `abort CLIENT SIGNAL REASON`;
//! `set CLIENT active`; `query CLIENT`, which answers how many entries were seen and how many locks are held;
//! `silence CLIENT`, `hear CLIENT` and `changes CLIENT`, what its bell tells (`service::hearing`); `terminate CLIENT`
//! and `close CLIENT`, which answer whether it left something; and `visit URL BUCKET`, which answers whether the visitor
//! was called, and how many entries it was shown. One that names no bucket visits that of `default`. `keep COUNT` puts
//! a new service in the place of the one that keeps each manager, which has so many at most, and `managers` answers how
//! many.
//! `locks URL` lists the locks of that URL's origin, or without it all: each manager with the numbers of the requests
//! that hold and, behind a bar, of those that wait, and how many were left out; `cut` counts those of the first one.

use crate::lists::{number, rest, show, word};
use crate::server::peers::Seat;
use crate::service::{hearing, listing};
use std::alloc::{AllocError, Global};
use std::random::RandomSource;
use std::sync::{Arc, Wait};
use std::test::Fail;
use wl_journal::{Entry, Sight};
use wl_manager::{LockList, LockRow, Ring, Visitor};
use wl_service::{Client, Keeping, OpenFault, Service, ServiceLocks, Ticket};
use wl_test_support::{ask, key_in, origin_key};
use wl_types::{Ask, Kind, Memory, Mode, Phase, Reason, Refusal, ReleaseAnswer, Text};

/// It ends by `leave`, since a peer has to.
pub struct Scene {
    pub service: Service,
    pub seat: Seat,
    pub alloc: Global,
    clients: Vec<Client>,
    tickets: Vec<Ticket>,
    ring: Arc<Ring>,
}

/// How many entries a visit showed, if it showed any.
#[derive(Drop)]
struct Shown {
    entries: Option<usize>,
}

impl Visitor for Shown {
    fn visit(&mut self, entries: &[Entry]) {
        self.entries = Some(entries.len());
    }
}

fn kind(word: &str) -> Kind {
    if word == "window" {
        Kind::Window
    } else {
        Kind::Worker
    }
}

fn reason(word: &str) -> Reason {
    if word == "TimeoutError" {
        return Reason::TimeoutError;
    }
    match word.parse::<u16>() {
        Ok(code) => Reason::Code(code),
        Err(_) => Reason::AbortError,
    }
}

/// The item of a place, from 1.
fn at<T>(items: &mut Vec<T>, place: usize) -> Option<&mut T> {
    items.get_mut(place.wrapping_sub(1))
}

/// How many entries were seen, and how many locks are held.
fn count_sight(seen: Result<Sight, Refusal>) -> Result<(u64, usize), Refusal> {
    let sight = seen?;
    Ok((sight.seen, sight.snapshot.held.as_slice().len()))
}

/// The calls that take a client alone.
fn call_client<R: Wait>(
    rt: &R,
    alloc: Global,
    ring: &Arc<Ring>,
    client: &mut Client,
    call: &str,
    came: &mut String,
) -> Result<(), Fail> {
    match word(call, 0) {
        "signal" => show(came, Some(client.new_signal(rt))),
        "abort" => {
            let signal = number(call, 2) as u64;
            show(came, Some(client.abort(rt, signal, reason(word(call, 3)))))
        }
        "set" => show(came, Some(client.set_active(rt, word(call, 2) == "active"))),
        "query" => show(came, Some(count_sight(client.query(rt)))),
        "silence" => hearing::silence(came, client),
        "hear" => hearing::put_hearing(alloc, came, client, ring),
        "changes" => hearing::put_changes(alloc, came, client),
        _ => show(came, None::<u64>),
    }
}

impl Scene {
    pub fn new<R: RandomSource>(rt: &R, alloc: Global) -> Result<Scene, Memory> {
        let ring = Arc::new(alloc, Ring::new(alloc))?;
        let service = Service::new(rt, alloc)?;
        Ok(Scene {
            service,
            seat: Seat::new(),
            alloc,
            clients: Vec::new(alloc),
            tickets: Vec::new(alloc),
            ring,
        })
    }

    pub fn leave<R: Wait>(self, rt: &R) {
        let Scene {
            service: _service,
            seat,
            alloc: _alloc,
            clients: _clients,
            tickets: _tickets,
            ring: _ring,
        } = self;
        seat.end(rt);
    }

    /// A new service takes the place of this one, and keeps so many managers at most.
    pub fn keep_used<R: RandomSource>(&mut self, rt: &R, most: usize) -> Result<(), Memory> {
        self.service = Service::with_keeping(rt, self.alloc, Keeping::Used { most })?;
        Ok(())
    }

    pub fn do_call<R: Wait>(&mut self, rt: &R, call: &str, came: &mut String) -> Result<(), Fail> {
        let place = number(call, 1);
        match word(call, 0) {
            "open" | "open_in" | "enter" | "open_heard" => show(came, Some(self.open(rt, call))),
            "fill" => show(came, Some(self.fill(rt, call))),
            "visit" => self.visit(rt, call, came),
            "request" | "ask_often" => self.request(rt, place, call, came),
            "look" => show(came, self.look(place)),
            "release" => show(came, self.release(rt, place, number(call, 2))),
            "terminate" | "close" => show(came, self.end(rt, place, word(call, 0))),
            "managers" => show(came, Some(self.service.managers(rt))),
            "locks" => self.list(rt, word(call, 1), came),
            "cut" => show(came, Some(listing::cut(rt, &self.service))),
            _ => match at(&mut self.clients, place) {
                Some(client) => call_client(rt, self.alloc, &self.ring, client, call, came),
                None => show(came, None::<u64>),
            },
        }
    }

    /// Answers the client's number. There is room for the client before it opens, so that none is lost.
    fn open<R: Wait>(&mut self, rt: &R, call: &str) -> Result<Option<u64>, OpenFault> {
        if self.clients.reserve(1).is_err() {
            return Err(OpenFault::Memory);
        }
        let client = self.open_client(rt, call)?;
        let number = client.client();
        self.clients.push_reserved(client);
        Ok(number)
    }

    /// A bucket, or the place of a bell, stands before the URL.
    fn open_client<R: Wait>(&self, rt: &R, call: &str) -> Result<Client, OpenFault> {
        let kind = kind(word(call, 1));
        let at = rest(call);
        let (bucket, url) = at.split_once(' ').unwrap_or((at, ""));
        match word(call, 0) {
            "open_in" => self.service.open_in(rt, url, bucket, kind),
            "enter" => self.enter(rt, url, bucket, kind),
            "open_heard" => hearing::open(
                rt,
                self.alloc,
                &self.service,
                &self.ring,
                url,
                number(call, 2),
            ),
            _ => self.service.open(rt, at, kind),
        }
    }

    /// In a bucket, with a text of its own.
    fn enter<R: Wait>(
        &self,
        rt: &R,
        url: &str,
        bucket: &str,
        kind: Kind,
    ) -> Result<Client, OpenFault> {
        match Text::of(self.alloc, bucket) {
            Ok(bucket) => self.service.open_in_text(rt, url, bucket, kind),
            Err(_) => Err(OpenFault::Memory),
        }
    }

    fn fill<R: Wait>(&mut self, rt: &R, call: &str) -> Result<Option<u64>, OpenFault> {
        let mut last = None;
        for _ in 0..number(call, 1) {
            last = self.open(rt, call)?;
        }
        Ok(last)
    }

    fn request<R: Wait>(
        &mut self,
        rt: &R,
        client: usize,
        call: &str,
        came: &mut String,
    ) -> Result<(), Fail> {
        let mut asked = ask(self.alloc, word(call, 2), Mode::Exclusive)?;
        asked.signal = word(call, 3).parse::<u64>().ok();
        if word(call, 0) == "request" {
            show(came, self.request_as(rt, client, &asked))
        } else {
            show(came, self.ask_often(rt, client, &asked))
        }
    }

    /// Answers the request's number. There is room for the ticket before, as there is for a client.
    fn request_as<R: Wait>(
        &mut self,
        rt: &R,
        client: usize,
        asked: &Ask,
    ) -> Option<Result<u64, Refusal>> {
        let client = at(&mut self.clients, client)?;
        if self.tickets.reserve(1).is_err() {
            return Some(Err(Refusal::Memory));
        }
        match client.request(rt, asked) {
            Ok(ticket) => {
                let number = ticket.number();
                self.tickets.push_reserved(ticket);
                Some(Ok(number))
            }
            Err(refusal) => Some(Err(refusal)),
        }
    }

    fn ask_often<R: Wait>(
        &mut self,
        rt: &R,
        client: usize,
        asked: &Ask,
    ) -> Option<Result<(), Refusal>> {
        Some(listing::ask_often(rt, at(&mut self.clients, client)?, asked))
    }

    fn look(&mut self, ticket: usize) -> Option<Phase> {
        Some(at(&mut self.tickets, ticket)?.look())
    }

    fn release<R: Wait>(&mut self, rt: &R, client: usize, ticket: usize) -> Option<ReleaseAnswer> {
        let ticket = at(&mut self.tickets, ticket)?;
        Some(at(&mut self.clients, client)?.release(rt, ticket))
    }

    /// Takes the client of a place away, and answers whether it left something.
    fn end<R: Wait>(&mut self, rt: &R, place: usize, how: &str) -> Option<bool> {
        let index = place.wrapping_sub(1);
        if index >= self.clients.len() {
            return None;
        }
        let client = self.clients.remove(index);
        if how == "close" {
            Some(self.service.close(rt, client).is_some())
        } else {
            Some(client.terminate(rt).is_some())
        }
    }

    fn visit<R: Wait>(&self, rt: &R, call: &str, came: &mut String) -> Result<(), Fail> {
        let bucket = match rest(call) {
            "" => "default",
            bucket => bucket,
        };
        let key = key_in(self.alloc, word(call, 1), bucket)?;
        let mut shown = Shown { entries: None };
        let visited = self.service.visit(rt, &key, &mut shown);
        show(came, Some((visited, shown.entries)))
    }

    fn list<R: Wait>(&self, rt: &R, url: &str, came: &mut String) -> Result<(), Fail> {
        let listed = if url.is_empty() {
            self.service.list_locks(rt, None, 0)
        } else {
            let origin = origin_key(self.alloc, url)?;
            self.service.list_locks(rt, Some(&origin), 0)
        };
        match listed {
            Ok(listed) => put_managers(self.alloc, came, &listed),
            Err(Memory) => show(came, Some(Err::<u64, Memory>(Memory))),
        }
    }
}

fn put_managers(alloc: Global, came: &mut String, listed: &ServiceLocks) -> Result<(), Fail> {
    for one in &listed.managers {
        let origin = one.key.origin.text(alloc)?;
        write!(came, "{} {}:", origin.as_str(), one.key.bucket.as_str())?;
        put_locks(came, &one.locks)?;
    }
    show(came, Some(listed.left_out_managers))
}

fn put_locks(came: &mut String, locks: &LockList) -> Result<(), AllocError> {
    put_numbers(came, &locks.held)?;
    came.push_str(" |")?;
    put_numbers(came, &locks.pending)?;
    write!(came, " and {}, ", locks.left_out)
}

fn put_numbers(came: &mut String, rows: &[LockRow]) -> Result<(), AllocError> {
    for row in rows {
        write!(came, " {}", row.request)?;
    }
    Ok(())
}
