//! Who opens the clients of connections.

ghost use Rattle.std.specs.Prelude.{◌≡◌, is_some};
ghost use Rattle.wl_service.specs.Clients.{number_of};

use std::sync::Wait;
use wl_service::{Client, Leaving, OpenFault, Service};
use wl_types::{Kind, Memory, Text};

/// Why nothing was opened for a connection.
#[derive(Clone, Copy, Debug, PartialEq, Eq, Drop)]
pub enum NotOpened {
    /// The service opened no client.
    Fault(OpenFault),
    /// The URL isn't for this connection, which is to end.
    Forbidden,
}

/// Why a message gets no reply. The connection is to end, and its agent was terminated.
#[derive(Clone, Copy, Debug, PartialEq, Eq, Drop)]
pub enum NoAnswer {
    /// A growth was refused.
    Memory,
    /// It asked for a URL that isn't for this connection.
    Forbidden,
    /// It asked for one more manager than may be.
    TooManyManagers,
}

impl From<Memory> for NoAnswer {
    fn from(_refused: Memory) -> NoAnswer {
        NoAnswer::Memory
    }
}

/// Opens and closes the clients of a connection.
pub trait Opener {
    /// Opens a window or worker at a URL, in a bucket of its origin.
    fn open<R: Wait>(
        &self,
        rt: &R,
        url: &str,
        bucket: Text,
        kind: Kind,
    ) -> Result<Client, NotOpened>;

    /// Ends a client that was opened by this.
    fn close<R: Wait>(&self, rt: &R, client: Client) -> Option<Leaving>
        ensures { is_some result ≡ is_some (number_of client) };
}

impl Opener for Service {
    fn open<R: Wait>(
        &self,
        rt: &R,
        url: &str,
        bucket: Text,
        kind: Kind,
    ) -> Result<Client, NotOpened> {
        match self.open_in_text(rt, url, bucket, kind) {
            Ok(client) => Ok(client),
            Err(fault) => Err(NotOpened::Fault(fault)),
        }
    }

    fn close<R: Wait>(&self, rt: &R, client: Client) -> Option<Leaving> {
        Service::close(self, rt, client)
    }
}
