//! The reported list: by number, each request whose end wasn't reported, with the phase that was last reported.
//!
//! It is a sorted `Vec`, searched by halves. A new request has the highest number and goes to the end. A request
//! that leaves from the middle moves those behind it. So a list may also keep ends in their places (`Upkeep` says
//! which does): the reported list is what is live in it.

ghost use Rattle.std.specs.Prelude.{◌≡◌, ◌+◌, ◌<◌, ◌≤◌, length, filter, fold, map, vec_len, vec_capacity, IfOk, IfErr};
ghost use Rattle.std.specs.Prelude.{IsTrue};
ghost use Rattle.wl_types.specs.Phases.{Reaches};
ghost use Rattle.wl_session.specs.inner.Places.{IsAt, IsGapFor};
ghost use Rattle.wl_session.specs.LastReported.{Fits, IsByNumber, found_in, is_live, put, phase_in, reported_phase};
ghost use Rattle.wl_session.specs.LastReported.{is_notice_due, has_due_notices, due_notices, as_released};
ghost use Rattle.wl_session.specs.LastReported.{with_released, with_observed};
ghost use Rattle.wl_session.specs.inner.LastReported.{IsReportedList};

use crate::outcomes::is_new;
use std::alloc::Global;
use wl_codec::{Notice, Notices, Outcome};
use wl_types::{Memory, Phase};

/// How many observations are reported one by one. Of more the ends leave together, since each that leaves alone moves
/// those behind it.
const FEW: usize = 8;

/// Where the number stands in the list, or where it would go.
fn place(list: &[(u64, Phase)], number: u64) -> Result<usize, usize>
    requires { IsByNumber list.now }
    ensures found { IfOk result (λ at. IsAt list.now number at) }
    ensures absent { IfErr result (λ at. IsGapFor list.now number at) }
{
    list.binary_search_by_key(&number, |observation| observation.0)
}

/// The phase that a list has of a request, if it is there.
pub(crate) fn found_in(list: &[(u64, Phase)], number: u64) -> Option<Phase>
    requires { IsByNumber list.now }
    ensures { result ≡ found_in list.now number }
{
    match place(list, number) {
        Ok(at) => Some(list[at].1),
        Err(_) => None,
    }
}

/// Of a request whose end was reported, nothing was reported since.
fn phase_in(last_reported: &[(u64, Phase)], number: u64) -> Phase
    requires { IsByNumber last_reported.now }
    ensures { result ≡ phase_in (filter is_live last_reported.now) number }
{
    match place(last_reported, number) {
        Ok(at) => {
            let phase = last_reported[at].1;
            if phase.is_end() {
                Phase::Pending
            } else {
                phase
            }
        }
        Err(_) => Phase::Pending,
    }
}

fn reported_phase(outcome: &Outcome, last_reported: &[(u64, Phase)], number: u64) -> Phase
    requires { IsByNumber last_reported.now }
    ensures { result ≡ reported_phase outcome.now (filter is_live last_reported.now) number }
{
    if is_new(outcome, number) {
        Phase::Pending
    } else {
        phase_in(last_reported, number)
    }
}

/// Whether moves, or none, lead from one phase to the other.
fn reaches(from: Phase, to: Phase) -> bool
    ensures { IsTrue result → Reaches from to }
{
    match (from, to) {
        (Phase::Pending, _) => true,
        (Phase::Granted, Phase::Pending | Phase::Unavailable) => false,
        (Phase::Granted, _) => true,
        (Phase::Taken, Phase::Taken | Phase::Released | Phase::Stolen) => true,
        _ => false,
    }
}

/// Whether what was found of a request fits what was last reported. Of an end nothing comes after.
pub(crate) fn fits(
    last_reported: &[(u64, Phase)],
    outcome: &Outcome,
    observation: (u64, Phase),
) -> bool
    requires { IsByNumber last_reported.now }
    ensures { IsTrue result → Fits outcome.now last_reported.now observation }
{
    if is_new(outcome, observation.0) {
        return true;
    }
    match place(last_reported, observation.0) {
        Ok(at) => reaches(last_reported[at].1, observation.1),
        Err(_) => false,
    }
}

fn is_notice_due(last_reported: Phase, found: Phase) -> bool
    ensures { result ≡ is_notice_due last_reported found }
{
    match found {
        Phase::Taken => !matches!(last_reported, Phase::Taken),
        Phase::Unavailable | Phase::Aborted(_) | Phase::Stolen => true,
        Phase::Pending | Phase::Granted | Phase::Released => false,
    }
}

/// The notices of a reply.
pub(crate) fn due_notices(
    alloc: Global,
    outcome: &Outcome,
    last_reported: &[(u64, Phase)],
    observed: &[(u64, Phase)],
) -> Result<Notices, Memory>
    requires { IsByNumber last_reported.now }
    ensures { IfOk result (λ notices. notices
        ≡ due_notices outcome.now (filter is_live last_reported.now) observed.now) }
{
    let mut notices = Notices::new(alloc);
    for observation in observed {
        let (request, phase) = *observation;
        if is_notice_due(reported_phase(outcome, last_reported, request), phase) {
            notices.push(Notice { request, phase })?;
        }
    }
    Ok(notices)
}

/// Whether `due_notices` has any.
pub(crate) fn has_due_notices(
    outcome: &Outcome,
    last_reported: &[(u64, Phase)],
    observed: &[(u64, Phase)],
) -> bool
    requires { IsByNumber last_reported.now }
    ensures { result ≡ has_due_notices outcome.now (filter is_live last_reported.now) observed.now }
{
    observed.iter().any(|observation| is_notice_due(
        reported_phase(outcome, last_reported, observation.0),
        observation.1,
    ))
}

/// Puts an observation into a list with room for it.
fn put_in_room(list: &mut Vec<(u64, Phase)>, observation: (u64, Phase))
    requires by_number { IsByNumber list.old.items }
    requires room { vec_len list.old < vec_capacity list.old }
    ensures items { list.new.items ≡ put list.old.items observation }
    ensures by_number { IsByNumber list.new.items }
    ensures one_more { vec_len list.new ≤ vec_len list.old + 1 }
    ensures capacity { vec_capacity list.old ≤ vec_capacity list.new }
{
    match place(list.as_slice(), observation.0) {
        Ok(at) => list[at] = observation,
        Err(at) => {
            let placed = list.insert(at, observation);
            let has_room = placed.is_ok();
            prove!(has_room);
        }
    }
}

/// Puts an observation into a reported list. An end leaves the list instead.
fn report_one(last_reported: &mut Vec<(u64, Phase)>, observation: (u64, Phase))
    requires list { IsReportedList last_reported.old.items }
    requires room { vec_len last_reported.old < vec_capacity last_reported.old }
    ensures items { last_reported.new.items ≡ filter is_live (put last_reported.old.items observation) }
    ensures list { IsReportedList last_reported.new.items }
    ensures one_more { vec_len last_reported.new ≤ vec_len last_reported.old + 1 }
    ensures room { vec_capacity last_reported.old ≤ vec_capacity last_reported.new }
{
    match place(last_reported.as_slice(), observation.0) {
        Ok(at) => {
            if observation.1.is_end() {
                last_reported.remove(at);
            } else {
                last_reported[at] = observation;
            }
        }
        Err(at) => {
            if !observation.1.is_end() {
                let placed = last_reported.insert(at, observation);
                let has_room = placed.is_ok();
                prove!(has_room);
            }
        }
    }
}

/// Puts observations into a reported list, one after another, which ends leave.
fn report_each(last_reported: &mut Vec<(u64, Phase)>, observed: &[(u64, Phase)])
    requires list { IsReportedList last_reported.old.items }
    requires room { vec_len last_reported.old + length observed.now ≤ vec_capacity last_reported.old }
    ensures items { last_reported.new.items ≡ with_observed last_reported.old.items observed.now }
    ensures list { IsReportedList last_reported.new.items }
{
    for observation in observed {
        report_one(last_reported, *observation);
    }
}

/// Puts observations into a list with room for them.
pub(crate) fn put_all(list: &mut Vec<(u64, Phase)>, observed: &[(u64, Phase)])
    requires by_number { IsByNumber list.old.items }
    requires room { vec_len list.old + length observed.now ≤ vec_capacity list.old }
    ensures items { list.new.items ≡ fold put list.old.items observed.now }
    ensures by_number { IsByNumber list.new.items }
{
    for observation in observed {
        put_in_room(list, *observation);
    }
}

/// Ends leave a list.
pub(crate) fn drop_ends(last_reported: &mut Vec<(u64, Phase)>)
    requires { IsByNumber last_reported.old.items }
    ensures items { last_reported.new.items ≡ filter is_live last_reported.old.items }
    ensures list { IsReportedList last_reported.new.items }
    ensures live { filter is_live last_reported.new.items ≡ last_reported.new.items }
{
    last_reported.retain(|observation| !observation.1.is_end());
}

/// Puts what was found into a reported list, which ends leave as they are reported.
pub(crate) fn report_at_once(last_reported: &mut Vec<(u64, Phase)>, observed: &[(u64, Phase)])
    requires list { IsReportedList last_reported.old.items }
    requires room { vec_len last_reported.old + length observed.now ≤ vec_capacity last_reported.old }
    ensures items { last_reported.new.items ≡ with_observed last_reported.old.items observed.now }
    ensures list { IsReportedList last_reported.new.items }
{
    if observed.len() <= FEW {
        return report_each(last_reported, observed);
    }
    put_all(last_reported, observed);
    drop_ends(last_reported);
}

/// The reported list with each of its requests released.
fn list_as_released(
    alloc: Global,
    last_reported: &[(u64, Phase)],
) -> Result<Vec<(u64, Phase)>, Memory>
    ensures { IfOk result (λ list. list.items ≡ map as_released (filter is_live last_reported.now)) }
{
    let mut list = Vec::with_capacity(alloc, last_reported.len())?;
    for observation in last_reported {
        let (request, phase) = *observation;
        if !phase.is_end() {
            list.push((request, Phase::Released))?;
        }
    }
    Ok(list)
}

/// Puts an observation into a list.
fn put(list: &mut Vec<(u64, Phase)>, observation: (u64, Phase)) -> Result<(), Memory>
    requires { IsByNumber list.old.items }
    ensures ok { IfOk result (λ _. list.new.items ≡ put list.old.items observation) }
    ensures by_number { IsByNumber list.new.items }
{
    list.reserve(1)?;
    put_in_room(list, observation);
    Ok(())
}

/// The observations, and as released each request of the reported list that they don't name.
pub(crate) fn with_released(
    alloc: Global,
    last_reported: &[(u64, Phase)],
    observed: &[(u64, Phase)],
) -> Result<Vec<(u64, Phase)>, Memory>
    requires { IsByNumber last_reported.now }
    ensures observed { IfOk result (λ list. list.items ≡ with_released (filter is_live last_reported.now)
        observed.now) }
    ensures by_number { IfOk result (λ list. IsByNumber list.items) }
{
    let mut list = list_as_released(alloc, last_reported)?;
    for observation in observed {
        put(&mut list, *observation)?;
    }
    Ok(list)
}
