//! The locks in the order of their grants.
ghost use Rattle.std.specs.Prelude.{◌≡◌, vec_len, vec_capacity, OnOk, IfOk, ◌∷◌, [], ◌++◌, map};
ghost use Rattle.wl_index.specs.inner.GrantOrder.{by_grant_seq, Distinct};
ghost use Rattle.wl_index.specs.inner.Order.{places_of};
ghost use Rattle.wl_index.specs.declared.request.Place.{Place};

use crate::request::{Place, Request, Stage};
use std::alloc::Global;
use wl_number_map::NumberMap;
use wl_types::Memory;

/// The places of the locks, by number.
pub(crate) fn places(requests: &NumberMap<Request>, alloc: Global) -> Result<Vec<Place>, Memory>
    ensures { IfOk result (λ places. places.items ≡ places_of requests.now.entries) }
{
    let mut places = Vec::new(alloc);
    for (number, request) in requests.rows(alloc)? {
        add_lock(&mut places, number, request)?;
    }
    Ok(places)
}

/// One more place, if the request is a lock.
fn add_lock(places: &mut Vec<Place>, number: u64, request: &Request) -> Result<(), Memory>
    ensures { OnOk result (places.new.items ≡ places.old.items ++ places_of ((number, request.now) ∷ [])) }
{
    if let Stage::Held(grant_seq, _) = request.stage {
        places.push(Place { grant_seq, number })?;
    }
    Ok(())
}

/// Sorts places by grant sequence, in place and without memory.
pub(crate) fn sort(places: &mut Vec<Place>)
    requires { Distinct (λ (p : Place). p.grant_seq) places.old.items }
    ensures items { places.new.items ≡ by_grant_seq (λ (p : Place). p.grant_seq) places.old.items }
    ensures len { vec_len places.new ≡ vec_len places.old }
    ensures capacity { vec_capacity places.new ≡ vec_capacity places.old }
{
    places.sort_unstable_by_key(|place| place.grant_seq);
}

/// The numbers of places.
pub(crate) fn numbers(places: &[Place], alloc: Global) -> Result<Vec<u64>, Memory>
    ensures { IfOk result (λ numbers. numbers.items ≡ map (λ (p : Place). p.number) places.now) }
{
    Ok(places.iter().map(|place| place.number).collect(alloc)?)
}
