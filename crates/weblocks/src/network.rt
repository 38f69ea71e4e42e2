//! The jobs on the network: a server of locks, and a client of one. Both are on 127.0.0.1.

use std::io;
use std::io::Write;
use std::net::{Ipv4Addr, Net, TcpListener, TcpStream};
use std::random::RandomSource;
use std::sync::Wait;
use std::thread::Threads;
use thiserror::Error;
use wl_server::{Gate, ListenFault, RelayFault, relay};
use wl_service::Service;
use wl_types::Memory;

/// Why a job on the network ended early.
#[derive(Clone, Copy, Debug, PartialEq, Eq, Drop, Error)]
pub enum NetFault {
    #[error("cannot listen on port {0}")]
    Bind(u16),
    /// Standard output failed, after so many connections.
    #[error("cannot write after connection {0}")]
    Print(u64),
    #[error("cannot accept after connection {0}")]
    Accept(u64),
    #[error("cannot start a thread after connection {0}")]
    Thread(u64),
    #[error("out of memory after connection {0}")]
    Crowded(u64),
    #[error("cannot connect to port {0}")]
    Connect(u16),
    #[error("connection ended after line {0}")]
    Ended(u64),
    #[error("cannot read after line {0}")]
    Read(u64),
    #[error("cannot write after line {0}")]
    Write(u64),
    #[error("line too long after line {0}")]
    LineTooLong(u64),
    #[error("out of memory")]
    Memory,
}

impl From<Memory> for NetFault {
    fn from(_refused: Memory) -> NetFault {
        NetFault::Memory
    }
}

impl From<ListenFault> for NetFault {
    fn from(fault: ListenFault) -> NetFault {
        match fault {
            ListenFault::Accept(connections) => NetFault::Accept(connections),
            ListenFault::Thread(connections) => NetFault::Thread(connections),
            ListenFault::Memory(connections) => NetFault::Crowded(connections),
        }
    }
}

/// Nobody asks how connections go on.
struct Unwatched;

impl Gate for Unwatched {
    fn enter(&self, _connection: u64) {}

    fn answered(&self, _connection: u64, _count: u64) {}
}

/// Serves on the port until so many clients have left. It says so once it listens, and at the end.
pub fn serve<R>(rt: &R, port: u16, clients: u64) -> Result<(), NetFault>
where
    R: Net<Listener = TcpListener, Stream = TcpStream>
        + Threads
        + Wait
        + Sync
        + Print
        + RandomSource
        + AllocGlobal,
{
    let Ok(listener) = TcpListener::bind(rt, (Ipv4Addr::LOCALHOST, port)) else {
        return Err(NetFault::Bind(port));
    };
    let service = Service::new(rt, rt.alloc())?;
    if println!(rt; "listening {port}").is_err() {
        return Err(NetFault::Print(0));
    }
    let served = wl_server::serve(rt, rt.alloc(), &listener, clients, &Unwatched, &service)?;
    let connections = served.connections;
    if println!(rt; "served {connections} failed {}", served.failed).is_err() {
        return Err(NetFault::Print(connections));
    }
    Ok(())
}

/// Sends each line of standard input to the server at the port, and writes its reply.
pub fn client<R>(rt: &R, port: u16) -> Result<(), NetFault>
where
    R: Net<Stream = TcpStream> + Wait + RandomSource + io::Input + Print + AllocGlobal,
{
    let Ok(stream) = TcpStream::connect(rt, (Ipv4Addr::LOCALHOST, port)) else {
        return Err(NetFault::Connect(port));
    };
    // Without it a line may wait for the server's word of the one before.
    let _ = stream.set_nodelay(true);
    let mut writer = io::writer(rt);
    match relay(rt, rt.alloc(), stream, rt.reader(), &mut writer) {
        Ok(lines) => writer.flush().map_err(|_| NetFault::Write(lines)),
        Err(RelayFault::Handshake) => Err(NetFault::Connect(port)),
        Err(RelayFault::Ended(lines)) => Err(NetFault::Ended(lines)),
        Err(RelayFault::Read(lines)) => Err(NetFault::Read(lines)),
        Err(RelayFault::Write(lines)) => Err(NetFault::Write(lines)),
        Err(RelayFault::LineTooLong(lines)) => Err(NetFault::LineTooLong(lines)),
        Err(RelayFault::Memory) => Err(NetFault::Memory),
    }
}
