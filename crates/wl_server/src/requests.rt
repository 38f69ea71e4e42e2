//! The requests of an agent whose end wasn't reported to it.

ghost use Rattle.std.specs.Prelude.{◌≡◌, ◌≢◌, All, Contains, IfOk, IfSome, OnOk};
ghost use Rattle.std.specs.List.Sorted.{IsStrictlyIncreasing};
ghost use Rattle.wl_types.specs.declared.phases.Phase.TheVariants.{Granted, Taken};
ghost use Rattle.wl_session.specs.LastReported.{Fits, IsByNumber};

use crate::fences::{Fence, FenceCounter};
use crate::open_client::OpenClient;
use std::alloc::Global;
use std::collections::BTreeMap;
use wl_cell::Taking;
use wl_codec::Outcome;
use wl_service::{Client, Ticket};
use wl_session::{Session, arrange, carries_notices};
use wl_types::{Memory, Phase};

/// A request. The session has the phase of it that was last reported.
#[derive(Drop)]
pub struct Request {
    pub ticket: Ticket,
    // Of its lock, once that was taken, where there are fences.
    token: Option<u64>,
}

impl Request {
    /// The phase, if it is another than the one last reported, after a grant was taken. What doesn't fit what the
    /// session was told isn't due: no cell gives such a phase, but no contract can say so of calls behind a lock that
    /// others share.
    fn change(
        &mut self,
        counter: Option<&FenceCounter>,
        session: &Session,
        outcome: &Outcome,
        number: u64,
    ) -> Option<Phase>
        ensures { IfSome result (λ phase. Fits outcome.now session.now.last_reported (number, phase)
            × (phase ≢ Granted)) }
    {
        let phase = observe_phase(&mut self.ticket, counter, &mut self.token);
        let is_reported = session.phase_of(number) == Some(phase);
        if is_reported || !session.fits(outcome, (number, phase)) {
            return None;
        }
        Some(phase)
    }
}

/// The requests by number.
#[derive(Drop)]
pub struct Requests {
    alloc: Global,
    by_number: BTreeMap<u64, Request>,
    // What the client said last that had changed: kept for its room.
    numbers: Vec<u64>,
    // Where there are fences.
    counter: Option<FenceCounter>,
    // Of the grants that were last observed.
    fences: Vec<Fence>,
}

/// The phase of a request. A grant is taken, and where that finds an end, the end is the phase. A lock that is taken
/// has a token, where there are fences.
fn observe_phase(
    ticket: &mut Ticket,
    counter: Option<&FenceCounter>,
    token: &mut Option<u64>,
) -> Phase
    ensures { result ≢ Granted }
{
    match ticket.look() {
        Phase::Granted => {
            // Before the take: what was taken may be stolen at once, and the thief's token is to be greater.
            let stepped = counter.map(|counter| counter.step());
            let phase = take(ticket);
            if phase == Phase::Taken {
                *token = stepped;
            }
            phase
        }
        phase => phase,
    }
}

fn take(ticket: &mut Ticket) -> Phase
    ensures { result ≢ Granted }
{
    match ticket.take() {
        Taking::Taken => Phase::Taken,
        Taking::Pending => Phase::Pending,
        Taking::Before(phase) => phase,
    }
}

/// The phase of the request of this number, if it is another than the one last reported, after a grant was taken.
fn change_of(
    requests: &mut BTreeMap<u64, Request>,
    counter: Option<&FenceCounter>,
    session: &Session,
    outcome: &Outcome,
    number: u64,
) -> Option<Phase>
    ensures { IfSome result (λ phase. Fits outcome.now session.now.last_reported (number, phase) × (phase ≢ Granted)) }
{
    let request = requests.get_mut(&number)?;
    request.change(counter, session, outcome, number)
}

/// The changed requests of these numbers, which rise.
fn observe_changed(
    alloc: Global,
    requests: &mut BTreeMap<u64, Request>,
    counter: Option<&FenceCounter>,
    session: &Session,
    outcome: &Outcome,
    numbers: &[u64],
) -> Result<Vec<(u64, Phase)>, Memory>
    requires { IsStrictlyIncreasing numbers.now }
    ensures by_number { IfOk result (λ observed. IsByNumber observed.items) }
    ensures fit { IfOk result (λ observed. All (Fits outcome.now session.now.last_reported) observed.items) }
    ensures taken { IfOk result (λ observed. All (λ observation. observation.1 ≢ Granted) observed.items) }
{
    let mut observed = Vec::new(alloc);
    for number in numbers {
        if let Some(phase) = change_of(requests, counter, session, outcome, *number) {
            observed.push((*number, phase))?;
        }
    }
    Ok(observed)
}

impl Requests {
    /// The requests of an agent that has none. Its grants have fences, if there is a counter.
    pub fn new(alloc: Global, counter: Option<FenceCounter>) -> Requests {
        Requests {
            alloc,
            by_number: BTreeMap::new(alloc),
            numbers: Vec::new(alloc),
            counter,
            fences: Vec::new(alloc),
        }
    }

    /// Lets all requests go. Those that come later have fences as these had.
    pub fn clear(&mut self) {
        self.by_number.clear();
    }

    /// Adds a new request.
    pub fn add(&mut self, ticket: Ticket) -> Result<(), Memory> {
        let number = ticket.number();
        let request = Request {
            ticket,
            token: None,
        };
        match self.by_number.insert(number, request) {
            Ok(_) => Ok(()),
            Err(_) => Err(Memory),
        }
    }

    /// The request of this number.
    pub fn get_mut(&mut self, number: u64) -> Option<&mut Request> {
        self.by_number.get_mut(&number)
    }

    /// The fences of the grants that were last observed, by number.
    pub fn fences(&self) -> &[Fence]
        ensures { result.now ≡ self.now.fences.items }
    {
        &self.fences
    }

    /// What a reply of this outcome to this client looks at: nothing where it has no notices, else what changed. The
    /// fences are those of the grants in it.
    pub fn observe(
        &mut self,
        open_client: Option<&OpenClient>,
        session: &Session,
        outcome: &Outcome,
    ) -> Result<Vec<(u64, Phase)>, Memory>
        ensures by_number { IfOk result (λ observed. IsByNumber observed.items) }
        ensures fit { IfOk result (λ observed. All (Fits outcome.now session.now.last_reported) observed.items) }
        ensures taken { IfOk result (λ observed. All (λ observation. observation.1 ≢ Granted) observed.items) }
        ensures fenced { IfOk result (λ observed. All (λ fence. Contains observed.items (fence.request, Taken))
            self.new.fences.items) }
    {
        let observed = match open_client {
            Some(open_client) if carries_notices(outcome) => self.changed_requests(
                open_client.client(),
                session,
                outcome,
            )?,
            _ => Vec::new(self.alloc),
        };
        self.keep_fences(&observed)?;
        Ok(observed)
    }

    /// Keeps the fences of the grants among what was found, and no others.
    fn keep_fences(&mut self, observed: &[(u64, Phase)]) -> Result<(), Memory>
        ensures { OnOk result (All (λ fence. Contains observed.now (fence.request, Taken)) self.new.fences.items) }
    {
        self.fences.clear();
        if self.counter.is_none() {
            return Ok(());
        }
        for (number, phase) in observed {
            let Phase::Taken = phase else {
                continue;
            };
            if let Some(token) = self.token_of(*number) {
                let request = *number;
                self.fences.push(Fence { request, token })?;
            }
        }
        Ok(())
    }

    /// The requests whose phase is another than the one last reported, by number, after each grant was taken. It looks
    /// at those that the client says have changed, and at a new one; at all of them where the client can't say.
    fn changed_requests(
        &mut self,
        client: &Client,
        session: &Session,
        outcome: &Outcome,
    ) -> Result<Vec<(u64, Phase)>, Memory>
        ensures by_number { IfOk result (λ observed. IsByNumber observed.items) }
        ensures fit { IfOk result (λ observed. All (Fits outcome.now session.now.last_reported) observed.items) }
        ensures taken { IfOk result (λ observed. All (λ observation. observation.1 ≢ Granted) observed.items) }
    {
        if !client.changed_requests(&mut self.numbers) {
            return self.observe_all(session, outcome);
        }
        if let Outcome::Request(number) = outcome {
            self.numbers.push(*number)?;
        }
        arrange(&mut self.numbers);
        observe_changed(
            self.alloc,
            &mut self.by_number,
            self.counter.as_ref(),
            session,
            outcome,
            &self.numbers,
        )
    }

    /// The same, by looking at each request.
    fn observe_all(
        &mut self,
        session: &Session,
        outcome: &Outcome,
    ) -> Result<Vec<(u64, Phase)>, Memory>
        ensures by_number { IfOk result (λ observed. IsByNumber observed.items) }
        ensures fit { IfOk result (λ observed. All (Fits outcome.now session.now.last_reported) observed.items) }
        ensures taken { IfOk result (λ observed. All (λ observation. observation.1 ≢ Granted) observed.items) }
    {
        let mut observed = Vec::new(self.alloc);
        for (number, request) in self.by_number.iter_mut() {
            if let Some(phase) = request.change(self.counter.as_ref(), session, outcome, *number) {
                observed.push((*number, phase))?;
            }
        }
        Ok(observed)
    }

    fn token_of(&self, number: u64) -> Option<u64> {
        self.by_number.get(&number)?.token
    }

    /// The requests whose end was reported leave.
    pub fn remove_ended(&mut self, reported: &[(u64, Phase)]) {
        for observation in reported {
            if observation.1.is_end() {
                let _ = self.by_number.remove(&observation.0);
            }
        }
    }
}
