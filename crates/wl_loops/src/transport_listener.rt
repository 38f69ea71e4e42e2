//! Where connections come in.

ghost use Rattle.std.specs.Prelude.{◌≡◌, true, IfOk};
ghost use Rattle.wl_admission.specs.Places.{unix_peers};
ghost use Rattle.wl_loops.specs.Transports.{is_local};

use crate::transport::Transport;
use mio::net::{TcpListener, UnixListener};
use mio::{Interest, Registry, Token};
use std::io;
use wl_admission::Source;

/// Where connections come in: at an address and port, or at a path of this machine's file system.
#[derive(Drop)]
pub enum TransportListener {
    Tcp(TcpListener),
    Unix(UnixListener),
}

impl TransportListener {
    /// Has this poll report by this token when connections come in.
    pub fn register(&mut self, registry: &Registry, token: Token) -> io::Result<()> {
        match self {
            TransportListener::Tcp(it) => registry.register(it, token, Interest::READABLE),
            TransportListener::Unix(it) => registry.register(it, token, Interest::READABLE),
        }
    }

    /// The next connection, and where it is from.
    pub fn accept(&self) -> io::Result<(Transport, Source)>
        ensures { IfOk result (λ came. is_local came.0 ≡ true → came.1 ≡ unix_peers) }
    {
        match self {
            TransportListener::Tcp(listener) => {
                let (stream, address) = listener.accept()?;
                Ok((Transport::Tcp(stream), Source::of(address.ip())))
            }
            TransportListener::Unix(listener) => {
                let (stream, _) = listener.accept()?;
                Ok((Transport::Unix(stream), Source::of_unix_peers()))
            }
        }
    }
}
