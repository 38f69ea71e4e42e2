//! A thread for each connection.

ghost use Rattle.std.specs.Prelude.{◌≡◌, ◌<◌, IfOk, IfErr};
ghost use Rattle.wl_server.specs.Listening.{ended};

use crate::connection_limit::ConnectionLimit;
use crate::serving::serve_with_hooks;
use crate::talk::Gate;
use crate::{ListenFault, Served};
use std::alloc::Global;
use std::io::ErrorKind;
use std::net::{Net, TcpListener, TcpStream};
use std::sync::{Condvar, Mutex, Wait};
use std::thread;
use std::thread::Threads;
use wl_service::Service;

/// What the threads of the connections share.
#[derive(Drop)]
struct Hall {
    connection_limit: Mutex<ConnectionLimit>,
    // Notified after each connection that ended.
    left: Condvar,
}

/// Waits until another connection may run, and counts it.
fn come_in<R: Wait>(rt: &R, hall: &Hall) {
    let mut connection_limit = hall.left.wait_while(
        rt,
        hall.connection_limit.lock(rt),
        |connection_limit| connection_limit.is_full(),
    );
    connection_limit.begin();
}

/// Serves a connection, and counts its end.
fn run_one<R: Wait, G: Gate>(
    rt: &R,
    alloc: Global,
    stream: TcpStream,
    gate: &G,
    connection: u64,
    service: &Service,
    hall: &Hall,
) {
    let end = serve_with_hooks(rt, alloc, stream, gate, connection, service);
    hall.connection_limit.lock(rt).end(end.fault.is_some());
    hall.left.notify_one();
}

/// Takes the connection that comes after so many others.
fn accept_after(listener: &TcpListener, before: u64) -> Result<TcpStream, ListenFault>
    ensures { IfErr result (λ fault. ended fault ≡ before) }
{
    match listener.accept() {
        Ok((stream, _)) => {
            // Without it a reply may wait for the peer's word of the one before.
            let _ = stream.set_nodelay(true);
            Ok(stream)
        }
        Err(error) => Err(if error.kind() == ErrorKind::OutOfMemory {
            ListenFault::Memory(before)
        } else {
            ListenFault::Accept(before)
        }),
    }
}

/// Serves n connections, each on a thread of its own, at most 64 at once, and returns when all of them have ended.
/// A connection that is accepted and can't be served is counted as one that failed.
pub fn serve<R, G>(
    rt: &R,
    alloc: Global,
    listener: &TcpListener,
    n: u64,
    gate: &G,
    service: &Service,
) -> Result<Served, ListenFault>
where
    R: Net<Listener = TcpListener, Stream = TcpStream> + Threads + Wait + Sync,
    G: Gate + Sync,
    ensures all { IfOk result (λ served. served.connections ≡ n) }
    ensures few { IfErr result (λ fault. ended fault < n) }
{
    let hall = Hall {
        connection_limit: Mutex::new(ConnectionLimit::new()),
        left: Condvar::new(),
    };
    let shared = &hall;
    let come = thread::scope(
        thread::scope_env(),
        rt,
        |scope| -> Result<(), ListenFault>
            ensures { IfErr result (λ fault. ended fault < n) }
        {
            for before in 0..n {
                come_in(rt, shared);
                let stream = match accept_after(listener, before) {
                    Ok(stream) => stream,
                    Err(fault) => return Err(fault),
                };
                let spawned = scope.spawn(move || {
                    run_one(rt, alloc, stream, gate, before + 1, service, shared)
                });
                if spawned.is_err() {
                    return Err(ListenFault::Thread(before));
                }
            }
            Ok(())
        },
    );
    come?;
    Ok(Served {
        connections: n,
        failed: hall.connection_limit.into_inner().count_failed(),
    })
}
