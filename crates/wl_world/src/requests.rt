//! The requests of a manager whose ends were not reported to their agents, each with what its agent is to learn of it.

ghost use Rattle.std.specs.Prelude.{◌≡◌, ◌++◌, ◌∷◌, [], IfOk, OnOk, OnErr};
ghost use Rattle.wl_world.specs.Requests.{changed_requests, with_changes, after_collect, waiting, without};
ghost use Rattle.wl_world.specs.inner.Requests.{IsRising};

use crate::agent_index::{AgentRequests, add, close, collect, forget, note_all};
use std::alloc::Global;
use std::marker::Model;
use wl_number_map::NumberMap;
use wl_types::{Change, Memory, Phase};

/// A request, whose it is, and the phase that it has come to since its agent's last reply with notices, if any.
#[derive(Clone, Copy, Debug, Drop)]
pub(crate) struct Request {
    pub number: u64,
    pub agent: u64,
    pub changed: Option<Phase>,
}

/// Requests in order of number. What is done costs what it changes or shows, whatever number of others there is.
#[derive(Drop)]
pub(crate) struct Requests {
    live: NumberMap<Request>,
    agent_index: NumberMap<AgentRequests>,
    alloc: Global,
}

impl Model for Requests {
    ghost use Rattle.std.specs.Prelude.{List};
    ghost use Rattle.std.specs.Map.{values_of};
    ghost use Rattle.wl_world.specs.declared.requests.Request.{Request};
    ghost use Rattle.wl_world.specs.inner.AgentIndex.{IsIndex};

    ghost Value = { List Request };

    ghost view = { λ requests. values_of requests.live.entries };

    ghost invariant = { λ requests. IsIndex requests.live.entries requests.agent_index.entries };
}

impl Requests {
    pub(crate) fn new(alloc: Global) -> Requests
        ensures { result ≡ [] }
    {
        Requests {
            live: NumberMap::new(alloc),
            agent_index: NumberMap::new(alloc),
            alloc,
        }
    }

    /// A new request waits, before the changes. After a want of memory no request is left.
    pub(crate) fn add(&mut self, agent: u64, number: u64, changes: &[Change]) -> Result<(), Memory>
        requires greatest { IsRising 0 number self.old }
        ensures ok { OnOk result (self.new ≡ with_changes changes.now (self.old ++ waiting agent number ∷ [])) }
        ensures err { OnErr result (self.new ≡ []) }
    {
        let (live, agent_index) = (&mut self.live, &mut self.agent_index);
        let result = add(self.alloc, live, agent_index, agent, number, changes);
        if result.is_err() {
            forget(&mut self.live, &mut self.agent_index);
        }
        result
    }

    /// Each change comes to the request that it names. After a want of memory no request is left.
    pub(crate) fn note(&mut self, changes: &[Change]) -> Result<(), Memory>
        ensures ok { OnOk result (self.new ≡ with_changes changes.now self.old) }
        ensures err { OnErr result (self.new ≡ []) }
    {
        let result = note_all(&mut self.live, &mut self.agent_index, changes);
        if result.is_err() {
            forget(&mut self.live, &mut self.agent_index);
        }
        result
    }

    /// The agent's changed requests are collected. After a want of memory no request is left.
    pub(crate) fn collect(&mut self, alloc: Global, agent: u64) -> Result<Vec<(u64, Phase)>, Memory>
        ensures changed { IfOk result (λ changed. changed.items ≡ changed_requests agent self.old) }
        ensures ok { OnOk result (self.new ≡ after_collect agent self.old) }
        ensures err { OnErr result (self.new ≡ []) }
    {
        let result = collect(alloc, &mut self.live, &mut self.agent_index, agent);
        if result.is_err() {
            forget(&mut self.live, &mut self.agent_index);
        }
        result
    }

    /// The agent has left.
    pub(crate) fn close(&mut self, agent: u64)
        ensures { self.new ≡ without agent self.old }
    {
        close(&mut self.live, &mut self.agent_index, agent);
    }

    /// No request is left.
    pub(crate) fn clear(&mut self)
        ensures { self.new ≡ [] }
    {
        forget(&mut self.live, &mut self.agent_index);
    }
}
