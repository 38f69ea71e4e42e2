//! Agents and their signals.
ghost use Rattle.std.specs.Prelude.{◌≡◌, ◌+◌, ◌<◌, ◌==◌, ◌&&◌, true, not, [], ◌∷◌, ◌++◌, map, filter, length, OnOk};
ghost use Rattle.std.specs.Prelude.{OnErr, IfOk, IsSome, Some, None, ℕ, false};
ghost use Rattle.std.specs.List.{list_any};
ghost use Rattle.std.specs.List.Sorted.{IsStrictlySortedBy};
ghost use Rattle.std.specs.Ordering.{nat_cmp};
ghost use Rattle.wl_index.specs.declared.agent.Agent.{Agent};
ghost use Rattle.wl_machine.specs.Refusals.{is_window, reason_in, signals_of};
ghost use Rattle.wl_machine.specs.Step.{with_active, with_reason};
ghost use Rattle.wl_index.specs.inner.AgentRows.{agent_row, signal_row};
ghost use Rattle.wl_index.specs.inner.Lists.{IsOn, IsRising, Keeps, SameLists, at};
ghost use Rattle.wl_index.specs.inner.Lists.{numbers_of_owner, only_live, signed_of};

use crate::agent::{
    Agent, Signal, add_signal, clean_list, enroll, is_inactive, is_worker, own_numbers, reason_of,
    remove_signals, set_reason_of, signed_numbers,
};
use crate::request::Owner;
use crate::requests::Requests;
use std::alloc::Global;
use std::collections::BTreeMap;
use std::marker::Model;
use wl_number_map::{NumberMap, Rows};
use wl_types::{Kind, Memory, Reason};

/// The agents and their signals, and the numbers that are given next.
#[derive(Drop)]
pub struct Agents {
    agents: NumberMap<Agent>,
    signals: NumberMap<Signal>,
    next_agent: u64,
    next_signal: u64,
    alloc: Global,
}

impl Model for Agents {
    ghost use Rattle.std.specs.Prelude.{ℕ, map};
    ghost use Rattle.std.specs.Coded.{codes};
    ghost use Rattle.wl_index.specs.contracts.agent.Agent as agent;
    ghost use Rattle.wl_index.specs.inner.Lists.{IsRising, at};
    ghost use Rattle.wl_index.specs.inner.AgentRows.{Register, IsAgentIndex, agent_row, signal_row};

    ghost Value = { Register };

    ghost coded = { Prim.hlevel (codes, agent.the_row.coded) };

    ghost view = { λ a. record {
      rows = record {
        agents = map agent_row a.agents.entries;
        signals = map signal_row a.signals.entries;
        next_agent = a.next_agent;
        next_signal = a.next_signal;
      };
      members = a.agents.entries;
    } };

    ghost invariant = { λ a. IsAgentIndex a.agents.entries a.signals.entries a.next_agent a.next_signal
        × ((agent : ℕ) → IsRising (at agent a.agents.entries)) };
}

impl Agents {
    pub fn new(alloc: Global, next_agent: u64, next_signal: u64) -> Agents
        ensures { result ≡ record {
          rows = record {
            agents = [];
            signals = [];
            next_agent = next_agent;
            next_signal = next_signal;
          };
          members = [];
        } }
    {
        Agents {
            agents: NumberMap::new(alloc),
            signals: NumberMap::new(alloc),
            next_agent,
            next_signal,
            alloc,
        }
    }

    /// The agents by number.
    pub fn rows(&self, alloc: Global) -> Result<Rows<'_, Agent>, Memory>
        ensures { IfOk result (λ rows. map agent_row rows ≡ self.now.rows.agents) }
    {
        Ok(self.agents.rows(alloc)?)
    }

    /// The signals by number.
    pub fn signals(&self, alloc: Global) -> Result<Rows<'_, Signal>, Memory>
        ensures { IfOk result (λ rows. map signal_row rows ≡ self.now.rows.signals) }
    {
        Ok(self.signals.rows(alloc)?)
    }

    /// How many agents are live.
    pub fn len(&self) -> usize
        ensures { result ≡ length self.now.rows.agents }
    {
        self.agents.len()
    }

    pub fn next_agent(&self) -> u64
        ensures { result ≡ self.now.rows.next_agent }
    {
        self.next_agent
    }

    pub fn next_signal(&self) -> u64
        ensures { result ≡ self.now.rows.next_signal }
    {
        self.next_signal
    }

    /// A new agent, active.
    pub fn open(&mut self, kind: Kind) -> Result<u64, Memory>
        requires { self.old.rows.next_agent < 9007199254740992 }
        ensures number { IfOk result (λ n. n ≡ self.old.rows.next_agent) }
        ensures opened { OnOk result (self.new.rows ≡ record self.old.rows {
          agents = self.old.rows.agents
              ++ record { number = self.old.rows.next_agent; kind = kind; active = true } ∷ [];
          next_agent = self.old.rows.next_agent + 1;
        }) }
        ensures err { OnErr result (self.new ≡ self.old) }
        ensures lists { SameLists self.old.members self.new.members }
    {
        let number = self.next_agent;
        let agent = Agent {
            kind,
            active: true,
            requests: Vec::new(self.alloc),
            signals: BTreeMap::new(self.alloc),
        };
        self.agents.insert(number, agent)?;
        self.next_agent = number + 1;
        Ok(number)
    }

    pub fn has(&self, agent: u64) -> bool
        ensures { result ≡ list_any (λ row. row.number == agent) self.now.rows.agents }
    {
        self.agents.contains(agent)
    }

    /// Whether the agent is a window made inactive.
    pub fn is_inactive(&self, agent: u64) -> bool
        ensures { result ≡ list_any (λ row. row.number == agent && is_window row.kind && not row.active)
            self.now.rows.agents }
    {
        match self.agents.get(agent) {
            Some(found) => is_inactive(found),
            None => false,
        }
    }

    pub fn is_worker(&self, agent: u64) -> bool
        ensures { result ≡ list_any (λ row. row.number == agent && not (is_window row.kind)) self.now.rows.agents }
    {
        match self.agents.get(agent) {
            Some(found) => is_worker(found),
            None => false,
        }
    }

    /// Whether the agent has made the signal.
    pub fn has_signal(&self, agent: u64, signal: u64) -> bool
        ensures { result ≡ list_any (λ row. row.agent == agent && row.number == signal) self.now.rows.signals }
    {
        match self.signals.get(signal) {
            Some(found) => found.agent == agent,
            None => false,
        }
    }

    /// Why the agent's signal was aborted, if it was.
    pub fn reason(&self, agent: u64, signal: u64) -> Option<Reason>
        ensures { result ≡ reason_in self.now.rows.signals agent signal }
    {
        match self.signals.get(signal) {
            Some(found) => reason_of(found, agent),
            None => None,
        }
    }

    /// How many signals the agent has made.
    pub fn signal_count(&self, agent: u64) -> usize
        requires { list_any (λ row. row.number == agent) self.now.rows.agents ≡ true }
        ensures { result ≡ length (signals_of agent self.now.rows.signals) }
    {
        self.agents.get(agent).unwrap().signals.len()
    }

    /// Makes the agent active or inactive.
    pub fn set_active(&mut self, agent: u64, active: bool)
        ensures rows { self.new.rows ≡ record self.old.rows {
          agents =
              map (with_active agent active) self.old.rows.agents;
        } }
        ensures lists { SameLists self.old.members self.new.members }
    {
        let Some(found) = self.agents.get_mut(agent) else {
            return;
        };
        found.active = active;
    }

    /// The agent's signal is aborted for this reason, and used no more: its list keeps live requests alone, and no more
    /// room than it needs.
    pub fn abort(&mut self, live: &Requests, agent: u64, signal: u64, reason: Reason)
        ensures rows { self.new.rows ≡ record self.old.rows {
          signals =
              map (with_reason agent signal reason) self.old.rows.signals;
        } }
        ensures cleaned { signed_of signal (at agent self.new.members)
            ≡ only_live live.now.entries (signed_of signal (at agent self.old.members)) }
        ensures kept { (a : ℕ) → Keeps live.now.entries (at a self.old.members) (at a self.new.members) }
    {
        self.set_reason(agent, signal, reason);
        self.clean(live, agent, signal);
    }

    /// The agent's signal has this reason.
    fn set_reason(&mut self, agent: u64, signal: u64, reason: Reason)
        ensures rows { self.new.rows ≡ record self.old.rows {
          signals =
              map (with_reason agent signal reason) self.old.rows.signals;
        } }
        ensures members { self.new.members ≡ self.old.members }
    {
        let Some(found) = self.signals.get_mut(signal) else {
            return;
        };
        set_reason_of(found, agent, reason);
    }

    /// The agent and its signals are gone. It costs what is gone.
    pub fn close(&mut self, agent: u64)
        requires { list_any (λ row. row.number == agent) self.old.rows.agents ≡ true }
        ensures rows { self.new.rows ≡ record self.old.rows {
          agents =
              filter (λ row. not (row.number == agent)) self.old.rows.agents;
          signals = filter (λ row. not (row.agent == agent)) self.old.rows.signals;
        } }
        ensures others { (other : ℕ) → (other == agent) ≡ false
            → at other self.new.members ≡ at other self.old.members }
    {
        let left = self.agents.remove(agent).unwrap();
        remove_signals(&mut self.signals, &left.signals);
    }

    /// A request of the agent, of a number above all that are live, comes to the agent's list, and to that of its
    /// signal.
    pub fn enlist(
        &mut self,
        live: &Requests,
        agent: u64,
        signal: Option<u64>,
        number: u64,
    ) -> Result<(), Memory>
        requires there { list_any (λ row. row.number == agent) self.old.rows.agents ≡ true }
        requires signed { (s : ℕ) → signal ≡ Some s → list_any (λ row. row.agent == agent && row.number == s)
            self.old.rows.signals ≡ true }
        requires above { (n : ℕ) → IsSome (at n live.now.entries) → n < number }
        ensures rows { self.new.rows ≡ self.old.rows }
        ensures kept { (a : ℕ) → Keeps live.now.entries (at a self.old.members) (at a self.new.members) }
        ensures on { OnOk result (IsOn (at agent self.new.members) number signal) }
    {
        let found = self.agents.get_mut(agent).unwrap();
        enroll(live, found, signal, number)
    }

    /// The numbers by which an owner's live requests are found, rising. Others may be among them.
    pub(crate) fn numbers(&self, owner: Owner) -> &[u64]
        ensures numbers { result.now ≡ numbers_of_owner owner self.now.members }
        ensures rising { IsStrictlySortedBy nat_cmp result.now }
    {
        match owner {
            Owner::Signal(agent, signal) => signed_numbers(self.agents.get(agent), signal),
            Owner::Agent(agent) => own_numbers(self.agents.get(agent)),
        }
    }

    /// A signal's list is cleaned, and keeps no more room than it needs.
    fn clean(&mut self, live: &Requests, agent: u64, signal: u64)
        ensures rows { self.new.rows ≡ self.old.rows }
        ensures cleaned { signed_of signal (at agent self.new.members)
            ≡ only_live live.now.entries (signed_of signal (at agent self.old.members)) }
        ensures kept { (a : ℕ) → Keeps live.now.entries (at a self.old.members) (at a self.new.members) }
    {
        let Some(found) = self.agents.get_mut(agent) else {
            return;
        };
        clean_list(live, &mut found.signals, signal);
    }

    /// A new signal of the agent, not aborted.
    pub fn make_signal(&mut self, agent: u64) -> Result<u64, Memory>
        requires low { self.old.rows.next_signal < 9007199254740992 }
        requires there { list_any (λ row. row.number == agent) self.old.rows.agents ≡ true }
        ensures number { IfOk result (λ n. n ≡ self.old.rows.next_signal) }
        ensures made { OnOk result (self.new.rows ≡ record self.old.rows {
          signals = self.old.rows.signals
              ++ record { agent = agent; number = self.old.rows.next_signal; reason = None } ∷ [];
          next_signal = self.old.rows.next_signal + 1;
        }) }
        ensures err { OnErr result (self.new.rows ≡ self.old.rows) }
        ensures lists { SameLists self.old.members self.new.members }
    {
        let number = self.next_signal;
        let signal = Signal {
            agent,
            reason: None,
        };
        self.signals.insert(number, signal)?;
        let Ok(()) = add_signal(&mut self.agents, agent, Vec::new(self.alloc), number) else {
            self.signals.remove(number);
            return Err(Memory);
        };
        self.next_signal = number + 1;
        Ok(number)
    }
}
