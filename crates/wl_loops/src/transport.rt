//! What carries the messages of a connection.

ghost use Rattle.std.specs.Prelude.{◌≡◌};
ghost use Rattle.std.specs.Io.{ReadsAtMost, WritesAtMost};
ghost use Rattle.wl_loops.specs.Transports.{is_local};

use mio::net::{TcpStream, UnixStream};
use mio::unix::SourceFd;
use mio::{Interest, Registry, Token};
use std::io;
use std::io::{Read, Write};
use std::net::Shutdown;
use std::os::fd::{AsRawFd, RawFd};

/// What carries the messages of a connection: a stream of the network, or one of this machine's file system.
///
/// The peer of a Unix socket may send descriptors along. None of them is taken: the read that comes upon one has the
/// system close it, and lasts as long as that does, which holds up the loop's other connections; and it ends there, so
/// that the bytes behind are read when more come. Whom that would harm has to keep such peers from the socket's file.
#[derive(Drop)]
pub enum Transport {
    Tcp(TcpStream),
    Unix(UnixStream),
}

impl Transport {
    /// Whether the peer is of this machine's file system, and so of this machine.
    pub fn is_local(&self) -> bool
        ensures { result ≡ is_local self.now }
    {
        match self {
            Transport::Tcp(_) => false,
            Transport::Unix(_) => true,
        }
    }

    fn raw_fd(&self) -> RawFd {
        match self {
            Transport::Tcp(stream) => stream.as_raw_fd(),
            Transport::Unix(stream) => stream.as_raw_fd(),
        }
    }

    /// Has this poll report by this token when it may be read or written.
    pub fn register(&self, registry: &Registry, token: Token) -> io::Result<()> {
        let both = Interest::READABLE | Interest::WRITABLE;
        registry.register(&mut SourceFd(&self.raw_fd()), token, both)
    }

    /// Has this poll report no more of it.
    pub fn deregister(&self, registry: &Registry) -> io::Result<()> {
        registry.deregister(&mut SourceFd(&self.raw_fd()))
    }

    /// Has each write leave at once. Without it a reply over TCP may wait for the peer's word of the one before.
    pub fn set_nodelay(&self) {
        if let Transport::Tcp(stream) = self {
            let _ = stream.set_nodelay(true);
        }
    }

    /// Ends one direction of the stream, or both, as the peer is told.
    pub fn shutdown(&self, how: Shutdown) -> io::Result<()> {
        match self {
            Transport::Tcp(stream) => stream.shutdown(how),
            Transport::Unix(stream) => stream.shutdown(how),
        }
    }
}

impl Read for Transport {
    fn read(&mut self, buf: &mut [u8]) -> io::Result<usize>
        ensures bound { ReadsAtMost result buf.new }
        ensures same { self.new ≡ self.old }
    {
        match self {
            Transport::Tcp(stream) => stream.read(buf),
            Transport::Unix(stream) => stream.read(buf),
        }
    }
}

impl Write for Transport {
    fn write(&mut self, buf: &[u8]) -> io::Result<usize>
        ensures bound { WritesAtMost result buf.now }
        ensures same { self.new ≡ self.old }
    {
        match self {
            Transport::Tcp(stream) => stream.write(buf),
            Transport::Unix(stream) => stream.write(buf),
        }
    }

    fn flush(&mut self) -> io::Result<()>
        ensures same { self.new ≡ self.old }
    {
        match self {
            Transport::Tcp(stream) => stream.flush(),
            Transport::Unix(stream) => stream.flush(),
        }
    }
}
