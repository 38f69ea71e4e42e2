//! An agent that opened.

ghost use Rattle.std.specs.Prelude.{◌≡◌, is_some};
ghost use Rattle.wl_service.specs.Clients.{number_of};

use crate::opener::Opener;
use std::sync::Wait;
use wl_service::{Client, Leaving};

/// The client of a connection's agent. It can't be dropped: who has one has to end it.
pub struct OpenClient {
    client: Client,
}

impl OpenClient {
    /// Whoever calls this has to end the agent from here on.
    pub fn new(client: Client) -> OpenClient
        ensures { result.client ≡ client }
    {
        OpenClient { client }
    }

    /// The client, for what takes no lock.
    pub fn client(&self) -> &Client
        ensures { result.now ≡ self.now.client }
    {
        &self.client
    }

    /// The client, for its operations. Its end is not among them: `end` is.
    pub fn client_mut(&mut self) -> &mut Client {
        &mut self.client
    }

    /// Terminates the agent. Only a client that was terminated leaves something, so this tells that it was, unless it
    /// is of an opaque origin.
    pub fn end<R: Wait, O: Opener>(self, rt: &R, opener: &O) -> Option<Leaving>
        ensures { is_some result ≡ is_some (number_of self.client) }
    {
        let OpenClient { client } = self;
        opener.close(rt, client)
    }

    /// `end`, where the service keeps each manager.
    pub fn terminate<R: Wait>(self, rt: &R) -> Option<Leaving>
        ensures { is_some result ≡ is_some (number_of self.client) }
    {
        let OpenClient { client } = self;
        client.terminate(rt)
    }
}
