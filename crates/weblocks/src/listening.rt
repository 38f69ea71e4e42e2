//! Where the daemon listens.

use mio::net::TcpListener;
use std::fmt;
use std::fs::{File, Files};
use std::net::{Net, SocketAddr};
use thiserror::Error;
use wl_cli::Endpoint;
use wl_daemon::{SocketFault, SocketFile, bind_socket};
use wl_loops::TransportListener;
use wl_types::Memory;

/// Why the daemon doesn't listen.
#[derive(Clone, Copy, Debug, PartialEq, Eq, Drop, Error)]
pub enum ListenFault<'a> {
    #[error("cannot listen on {0}")]
    Address(SocketAddr),
    #[error("cannot listen on unix:{0}: {1}")]
    Socket(&'a str, SocketFault),
    #[error("out of memory")]
    Memory,
}

impl<'a> From<Memory> for ListenFault<'a> {
    fn from(_refused: Memory) -> ListenFault<'a> {
        ListenFault::Memory
    }
}

/// Where the daemon listens, as it is told.
#[derive(Drop)]
pub struct Place<'a>(Endpoint<'a>);

impl fmt::Display for Place<'_> {
    fn fmt<W: fmt::Write>(&self, f: &mut fmt::Formatter<W>) -> fmt::Result {
        match self.0 {
            Endpoint::Tcp(address) => write!(f, "{address}"),
            Endpoint::Unix(path) => write!(f, "unix:{path}"),
        }
    }
}

/// All that the daemon listens on.
#[derive(Drop)]
pub struct Listening<'a, R: Files> {
    pub listeners: Vec<TransportListener>,
    /// Where they listen, with the ports that they got.
    pub places: Vec<Place<'a>>,
    /// The files of those that are sockets, which are removed when this is let go of.
    pub files: Vec<SocketFile<'a, R>>,
}

impl<'a, R> Listening<'a, R>
where
    R: Net + Files<File = File> + AllocGlobal,
{
    /// Listens at these endpoints, in their order.
    pub fn new(rt: &'a R, endpoints: &[Endpoint<'a>]) -> Result<Listening<'a, R>, ListenFault<'a>> {
        let mut listening = Listening {
            listeners: Vec::new(rt.alloc()),
            places: Vec::new(rt.alloc()),
            files: Vec::new(rt.alloc()),
        };
        for endpoint in endpoints {
            match *endpoint {
                Endpoint::Tcp(address) => listening.add_address(rt, address)?,
                Endpoint::Unix(path) => listening.add_socket(rt, path)?,
            }
        }
        Ok(listening)
    }

    fn add_address(&mut self, rt: &'a R, address: SocketAddr) -> Result<(), ListenFault<'a>> {
        let Ok(listener) = TcpListener::bind(rt, address) else {
            return Err(ListenFault::Address(address));
        };
        let bound = listener.local_addr().unwrap_or(address);
        self.add(TransportListener::Tcp(listener), Endpoint::Tcp(bound))?;
        Ok(())
    }

    fn add_socket(&mut self, rt: &'a R, path: &'a str) -> Result<(), ListenFault<'a>> {
        let (listener, file) = match bind_socket(rt, path) {
            Ok(bound) => bound,
            Err(fault) => return Err(ListenFault::Socket(path, fault)),
        };
        if self.files.push(file).is_err() {
            return Err(ListenFault::Memory);
        }
        self.add(TransportListener::Unix(listener), Endpoint::Unix(path))?;
        Ok(())
    }

    fn add(&mut self, listener: TransportListener, endpoint: Endpoint<'a>) -> Result<(), Memory> {
        self.listeners.push(listener)?;
        self.places.push(Place(endpoint))?;
        Ok(())
    }
}
