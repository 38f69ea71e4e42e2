//! Lists of the numbers by which an agent's requests are found, and those with a signal.
//!
//! A request that ends stays on its lists, so that its end costs nothing here: whether a number is of a live request is
//! seen where it is looked up. A list that is full is cleaned before it grows.
ghost use Rattle.std.specs.Prelude.{◌≡◌, ◌<◌, ℕ, filter, nat_lt, true, IsSome, OnOk};
ghost use Rattle.std.specs.List.{AllByRecursion, Contains};
ghost use Rattle.std.specs.List.Sorted.{IsStrictlySortedBy};
ghost use Rattle.std.specs.Ordering.{nat_cmp};
ghost use Rattle.wl_index.specs.inner.Lists.{KeepsLive, at, only_live};

use crate::requests::Requests;
use wl_types::Memory;

/// Only the numbers of live requests stay.
pub(crate) fn retain_live(live: &Requests, list: &mut Vec<u64>)
    ensures { list.new.items ≡ only_live live.now.entries list.old.items }
{
    list.retain(|number| live.is_live(*number));
}

/// A list that is full is cleaned, and doubled where that made little room. So a number is looked up twice at most on
/// average.
fn make_room(live: &Requests, list: &mut Vec<u64>) -> Result<(), Memory>
    requires { IsStrictlySortedBy nat_cmp list.old.items }
    ensures rising { IsStrictlySortedBy nat_cmp list.new.items }
    ensures kept { KeepsLive live.now.entries list.old.items list.new.items }
{
    if list.len() < list.capacity() {
        return Ok(());
    }
    retain_live(live, list);
    if list.len() > list.capacity() / 2 {
        list.reserve(list.len())?;
    }
    Ok(())
}

/// Whether the last number of a list, and so each, is below a number.
fn is_below(list: &[u64], number: u64) -> bool
    requires { IsStrictlySortedBy nat_cmp list.now }
    ensures { result ≡ true → AllByRecursion (λ n. n < number) list.now }
{
    match list.last() {
        Some(last) => *last < number,
        None => true,
    }
}

/// What is at a number or above it leaves a list. A request that was not admitted in the end may have left such a
/// number.
fn trim(list: &mut Vec<u64>, number: u64)
    requires { IsStrictlySortedBy nat_cmp list.old.items }
    ensures { list.new.items ≡ filter (λ n. nat_lt n number) list.old.items }
{
    if is_below(list, number) {
        return;
    }
    list.retain(|listed| *listed < number);
}

/// A number comes to a list, above all that are live.
pub(crate) fn enlist(live: &Requests, list: &mut Vec<u64>, number: u64) -> Result<(), Memory>
    requires rising { IsStrictlySortedBy nat_cmp list.old.items }
    requires above { (n : ℕ) → IsSome (at n live.now.entries) → n < number }
    ensures rising { IsStrictlySortedBy nat_cmp list.new.items }
    ensures kept { KeepsLive live.now.entries list.old.items list.new.items }
    ensures on { OnOk result (Contains list.new.items number) }
{
    make_room(live, list)?;
    trim(list, number);
    list.push(number)?;
    Ok(())
}
