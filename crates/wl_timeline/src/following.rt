//! Answers a script's lines, and follows what becomes of its requests.

ghost use Rattle.std.specs.Prelude.{None};
ghost use Rattle.wl_world.specs.Worlds.{journals_in, world_of};

use crate::history::History;
use std::alloc::Global;
use std::hash::RandomState;
use wl_index::IndexCore;
use wl_script::Answerer;
use wl_types::Memory;
use wl_world::Engine;

/// The engine that answers a script, beside the history of what it answered.
#[derive(Drop)]
pub(crate) struct Follower {
    engine: Engine<IndexCore>,
    history: History,
}

impl Follower {
    pub(crate) fn new(alloc: Global, seed: RandomState) -> Follower {
        Follower {
            engine: Engine::new(alloc, seed),
            history: History::new(alloc, seed),
        }
    }

    pub(crate) fn into_history(self) -> History {
        self.history
    }
}

impl Answerer for Follower {
    ghost world = { λ follower. world_of follower.engine };

    ghost journals = { λ follower. journals_in None follower.engine };

    fn answer(&mut self, line: &[u8]) -> Result<String, Memory> {
        let reply = self.engine.answer(line)?;
        self.history.follow(line, reply.as_str())?;
        Ok(reply)
    }
}
