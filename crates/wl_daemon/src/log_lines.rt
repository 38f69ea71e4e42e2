//! What a log is told of connections.

use log::{Log, debug, info, warn};
use std::fmt;
use std::net::{IpAddr, Ipv6Addr};
use wl_admission::Source;
use wl_loops::{AcceptFault, Event};
use wl_wire::Ending;

/// Where a connection is from, as a log tells it.
#[derive(Drop)]
struct Sender(Source);

impl fmt::Display for Sender {
    fn fmt<W: fmt::Write>(&self, f: &mut fmt::Formatter<W>) -> fmt::Result {
        if self.0 == Source::of_unix_peers() {
            return f.write_str("unix");
        }
        let address = IpAddr::from(Ipv6Addr::from_bits(self.0.number));
        address.to_canonical().fmt(f)
    }
}

/// Tells a log what happened.
pub fn tell_log<L: Log>(log: &L, event: Event) {
    match event {
        Event::Refused(source, rejection) => {
            info!(log; "{}: refused: {}", Sender(source), rejection.text());
        }
        Event::Dropped(source) => info!(log; "{}: dropped: no place", Sender(source)),
        Event::Closed(source, ending) => tell_ending(log, source, ending),
        Event::NoHandshake(source) => {
            info!(log; "{}: refused: no WebSocket handshake", Sender(source));
        }
        Event::Late(source) => info!(log; "{}: ended: no handshake in time", Sender(source)),
        Event::Silent(source) => info!(log; "{}: ended: silent for too long", Sender(source)),
        Event::Moved(source, to) => debug!(log; "{}: moved to loop {to}", Sender(source)),
        Event::CannotAccept(fault) => tell_hindrance(log, fault),
    }
}

fn tell_hindrance<L: Log>(log: &L, fault: AcceptFault) {
    match fault {
        AcceptFault::FilesOfProcess => {
            warn!(log; "cannot accept connections: too many open files");
        }
        AcceptFault::FilesOfSystem => {
            warn!(log; "cannot accept connections: too many open files in the system");
        }
        AcceptFault::Other(kind) => warn!(log; "cannot accept connections: {kind}"),
    }
}

/// Limits that were reached stand in a log, and what a peer did otherwise only in a talkative one.
fn tell_ending<L: Log>(log: &L, source: Source, ending: Ending) {
    let sender = Sender(source);
    match ending {
        Ending::TooLong => info!(log; "{sender}: closed: message too long"),
        Ending::Forbidden(reason) | Ending::Busy(reason) => {
            info!(log; "{sender}: closed: {reason}");
        }
        Ending::Memory => warn!(log; "{sender}: closed: out of memory"),
        Ending::Protocol => debug!(log; "{sender}: closed: broken frame"),
        Ending::NotText => debug!(log; "{sender}: closed: not UTF-8"),
        Ending::Away => debug!(log; "{sender}: closed: server ends"),
        Ending::Closed => debug!(log; "{sender}: closed by its peer"),
        Ending::Broken => debug!(log; "{sender}: lost"),
    }
}
