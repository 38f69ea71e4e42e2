//! A client of the service.

ghost use Rattle.std.specs.Prelude.{◌≡◌, ◌⊎◌, [], true, false, Err, IfErr, is_some};
ghost use Rattle.wl_types.specs.declared.refusal.Refusal.TheVariants.{NoSuchAgent, NoSuchSignal, Security};
ghost use Rattle.wl_types.specs.declared.answers.ReleaseAnswer.TheVariants.{NotHeld};
ghost use Rattle.wl_machine.specs.Refusals.{activity, no_storage};
ghost use Rattle.wl_machine.specs.declared.command.Command.TheVariants as command;
ghost use Rattle.wl_manager.specs.Agents.{MayRefuse};
ghost use Rattle.wl_service.specs.Clients.{Managed, Opaque, IfManaged, IfOpaque, made_active, number_of};

use crate::directory::Core;
use crate::opaque::OpaqueAgent;
use std::marker::Model;
use std::sync::Wait;
use wl_journal::Sight;
use wl_machine::no_storage;
use wl_manager::{Agent, Recent};
use wl_origin::ManagerKey;
use wl_types::{AbortAnswer, Ask, Kind, Reason, Refusal, ReleaseAnswer};

/// What a client has of its request. It may move to another thread, and may outlive the client.
pub type Ticket = wl_manager::Ticket<Core, Recent>;

/// What an ended client leaves. A service counts no shares, so it has no bytes.
pub type Leaving = wl_manager::Leaving<Recent>;

#[derive(Drop)]
enum Side {
    Managed(Agent<Core, Recent>),
    Opaque(OpaqueAgent),
}

/// A window or worker that opened: an agent of its origin's manager, or one of an opaque origin, which is refused.
///
/// Each call of a managed client but `client`, `changed_requests`, `is_rung` and `silence_bell` is its agent's, and
/// takes its manager's lock; an opaque one takes none. A client should end by `Service::close`, or by `terminate` where
/// its service keeps each manager: one that is dropped stays in its manager, with its locks.
#[derive(Drop)]
pub struct Client {
    side: Side,
    // By which its service finds its manager, if it drops those that have no client.
    key: Option<ManagerKey>,
}

impl Model for Client {
    ghost use Rattle.wl_service.specs.Clients.{Who};
    ghost use Rattle.wl_service.specs.inner.Clients.{who_of};

    ghost Value = { Who };

    ghost view = { λ c. who_of c.side };
}

impl Client {
    /// An agent, and its manager's key where the service may drop that.
    pub(crate) fn of_manager(agent: Agent<Core, Recent>, key: Option<ManagerKey>) -> Client
        ensures { result ≡ Managed agent.number }
    {
        Client {
            side: Side::Managed(agent),
            key,
        }
    }

    /// A window or worker of an opaque origin. It begins active.
    pub(crate) fn opaque(kind: Kind) -> Client
        ensures { result ≡ Opaque kind true }
    {
        Client {
            side: Side::Opaque(OpaqueAgent { kind, active: true }),
            key: None,
        }
    }

    /// Its number, from 1 in its origin's manager. An opaque client has none.
    pub fn client(&self) -> Option<u64>
        ensures { result ≡ number_of self.now }
    {
        match &self.side {
            Side::Managed(agent) => Some(agent.client()),
            Side::Opaque(_) => None,
        }
    }

    /// Puts the numbers of the requests that changed since the last such call in place of those that the list has, in
    /// no order and some more than once. Answers whether these are all: else any request may have changed. It takes no
    /// lock of the manager, and waits for nobody. An opaque client has no requests.
    pub fn changed_requests(&self, numbers: &mut Vec<u64>) -> bool
        ensures opaque { IfOpaque self.now (λ kind active. (result ≡ true) × (numbers.new.items ≡ [])) }
    {
        match &self.side {
            Side::Managed(agent) => agent.changed_requests(numbers),
            Side::Opaque(_) => {
                numbers.clear();
                true
            }
        }
    }

    /// Whether a request changed since `changed_requests` was last called. A bell that the client was opened with was
    /// rung then.
    pub fn is_rung(&self) -> bool
        ensures opaque { IfOpaque self.now (λ kind active. result ≡ false) }
    {
        match &self.side {
            Side::Managed(agent) => agent.is_rung(),
            Side::Opaque(_) => false,
        }
    }

    /// From here until `changed_requests` is next called no change rings the bell, and `is_rung` answers true: for
    /// whoever is about to call that in any case, as behind an operation of its own. Whoever doesn't is told of nothing
    /// any more. An opaque client has no bell.
    pub fn silence_bell(&self) {
        if let Side::Managed(agent) = &self.side {
            agent.silence_bell();
        }
    }

    /// Asks for a lock. The ticket tells what becomes of it. Refused: as `LockCore::request`; each request of an opaque
    /// client, by `InvalidState` where it is an inactive window, else by `Security`.
    pub fn request<R: Wait>(&mut self, rt: &R, ask: &Ask) -> Result<Ticket, Refusal>
        ensures managed { IfManaged self.old (λ n. IfErr result (MayRefuse (command.Request n ask.now))) }
        ensures opaque { IfOpaque self.old (λ kind active. result ≡ Err (no_storage kind active)) }
        ensures same { self.new ≡ self.old }
    {
        match &mut self.side {
            Side::Managed(agent) => agent.request(rt, ask),
            Side::Opaque(agent) => Err(no_storage(agent.kind, agent.active)),
        }
    }

    /// Gives up the lock of this ticket, by its number. `NotHeld` where this client doesn't hold it. The ticket should
    /// be of this client's manager: the number of another's means another request here.
    pub fn release<R: Wait>(&mut self, rt: &R, ticket: &mut Ticket) -> ReleaseAnswer
        ensures opaque { IfOpaque self.old (λ kind active. result ≡ NotHeld) }
        ensures ticket { ticket.new ≡ ticket.old }
        ensures same { self.new ≡ self.old }
    {
        match &mut self.side {
            Side::Managed(agent) => agent.release(rt, ticket),
            Side::Opaque(_) => ReleaseAnswer::NotHeld,
        }
    }

    /// A new signal, by its number. Refused: `TooManySignals` where this client has made 1,024, `NumbersSpent`,
    /// `Memory`; an opaque client by `Security`.
    pub fn new_signal<R: Wait>(&mut self, rt: &R) -> Result<u64, Refusal>
        ensures managed { IfManaged self.old (λ n. IfErr result (MayRefuse (command.NewSignal n))) }
        ensures opaque { IfOpaque self.old (λ kind active. result ≡ Err Security) }
        ensures same { self.new ≡ self.old }
    {
        match &mut self.side {
            Side::Managed(agent) => agent.new_signal(rt),
            Side::Opaque(_) => Err(Refusal::Security),
        }
    }

    /// Aborts a signal of this client. Its requests that wait end, and so do its granted locks that weren't taken.
    /// It takes no memory. Refused: `NoSuchSignal`, for an opaque client always.
    pub fn abort<R: Wait>(
        &mut self,
        rt: &R,
        signal: u64,
        reason: Reason,
    ) -> Result<AbortAnswer, Refusal>
        ensures opaque { IfOpaque self.old (λ kind active. result ≡ Err NoSuchSignal) }
        ensures refused { IfErr result (λ refusal. (refusal ≡ NoSuchAgent) ⊎ (refusal ≡ NoSuchSignal)) }
        ensures same { self.new ≡ self.old }
    {
        match &mut self.side {
            Side::Managed(agent) => agent.abort(rt, signal, reason),
            Side::Opaque(_) => Err(Refusal::NoSuchSignal),
        }
    }

    /// Makes this window active or inactive: an inactive one may neither request nor query. Refused: `NotAWindow`,
    /// and `Memory` unless the client is opaque.
    pub fn set_active<R: Wait>(&mut self, rt: &R, active: bool) -> Result<(), Refusal>
        ensures managed { IfManaged self.old (λ n. IfErr result (MayRefuse (command.SetActive n active))) }
        ensures opaque { IfOpaque self.old (λ kind was. result ≡ activity kind) }
        ensures new { self.new ≡ made_active self.old active }
    {
        match &mut self.side {
            Side::Managed(agent) => agent.set_active(rt, active),
            Side::Opaque(agent) => agent.set_active(active),
        }
    }

    /// What is held and what waits in its manager, after how many entries. Refused: `InvalidState`, `Memory`; an opaque
    /// client as by `request`.
    pub fn query<R: Wait>(&mut self, rt: &R) -> Result<Sight, Refusal>
        ensures managed { IfManaged self.old (λ n. IfErr result (MayRefuse (command.Query n))) }
        ensures opaque { IfOpaque self.old (λ kind active. result ≡ Err (no_storage kind active)) }
        ensures same { self.new ≡ self.old }
    {
        match &mut self.side {
            Side::Managed(agent) => agent.query(rt),
            Side::Opaque(agent) => Err(no_storage(agent.kind, agent.active)),
        }
    }

    /// Ends this client: its requests end, its locks are given up, its signals are gone. An opaque one leaves nothing.
    pub fn terminate<R: Wait>(self, rt: &R) -> Option<Leaving>
        ensures { is_some result ≡ is_some (number_of self) }
    {
        self.close(rt).0
    }

    /// `terminate`, with the key of the manager that was left.
    pub(crate) fn close<R: Wait>(self, rt: &R) -> (Option<Leaving>, Option<ManagerKey>)
        ensures { is_some result.0 ≡ is_some (number_of self) }
    {
        let Client { side, key } = self;
        let leaving = match side {
            Side::Managed(agent) => Some(agent.terminate(rt)),
            Side::Opaque(_) => None,
        };
        (leaving, key)
    }
}
