//! The locks that an abort of a signal would end. Each is found by the numbers of the signal's list.
ghost use Rattle.std.specs.Prelude.{◌≡◌, ◌∷◌, ◌++◌, [], Some, map, filter, slice_get};
ghost use Rattle.std.specs.List.{find};
ghost use Rattle.std.specs.List.Sorted.{IsStrictlySortedBy};
ghost use Rattle.std.specs.Option.{option_to_list};
ghost use Rattle.std.specs.Ordering.{nat_cmp};
ghost use Rattle.wl_machine.specs.declared.rows.HeldRow.{HeldRow};
ghost use Rattle.wl_machine.specs.Least.{IsLeast, above};
ghost use Rattle.wl_index.specs.inner.Ends.{IsOwners, ends_lock, untaken_places};
ghost use Rattle.wl_index.specs.inner.Order.{from_grant_seq, first_of};
ghost use Rattle.wl_index.specs.inner.Rows.{held_of};
ghost use Rattle.wl_index.specs.inner.Untaken.{finds_untaken};

use crate::request::{Owner, Place, Standing};
use crate::requests::Requests;

impl Requests {
    /// The number of the `i`-th of them, from 0 in the order of grants. It costs `i` times what the list costs.
    pub(crate) fn nth_untaken(&self, numbers: &[u64], owner: Owner, i: u64) -> Option<u64>
        requires { IsStrictlySortedBy nat_cmp numbers.now × IsOwners owner self.now.entries numbers.now }
        ensures { result ≡ slice_get (map (λ (lock : HeldRow). lock.number)
            (filter (ends_lock owner) (held_of self.now.entries))) i }
    {
        let _ = &self.requests;
        let mut low = 0;
        for passed in 0..i {
            low = self.first_untaken(numbers, owner, low)?.grant_seq + 1;
        }
        Some(self.first_untaken(numbers, owner, low)?.number)
    }

    /// The least number above `after`. It looks at no more of the list than what stands between the two.
    pub(crate) fn least_untaken(&self, numbers: &[u64], owner: Owner, after: u64) -> Option<u64>
        requires { IsStrictlySortedBy nat_cmp numbers.now × IsOwners owner self.now.entries numbers.now }
        ensures { IsLeast (above after (map (λ (lock : HeldRow). lock.number)
            (filter (ends_lock owner) (held_of self.now.entries)))) result }
    {
        let _ = &self.requests;
        let behind = numbers.partition_point(|number| *number <= after);
        self.first_listed(&numbers[behind..], owner)
    }

    /// The first of these numbers that finds such a lock.
    fn first_listed(&self, numbers: &[u64], owner: Owner) -> Option<u64>
        ensures { result ≡ find (finds_untaken owner self.now.entries) numbers.now }
    {
        for listed in numbers {
            let place = self.ending_place(*listed, owner, Standing::Holds);
            if place.is_some() {
                return Some(*listed);
            }
        }
        None
    }

    /// The first place from a grant sequence on.
    fn first_untaken(&self, numbers: &[u64], owner: Owner, low: u64) -> Option<Place>
        requires { IsStrictlySortedBy nat_cmp numbers.now × IsOwners owner self.now.entries numbers.now }
        ensures { result ≡ first_of (from_grant_seq low (untaken_places owner self.now.entries)) }
    {
        let _ = &self.requests;
        let mut first = None;
        for number in numbers {
            first = earlier(
                first,
                self.ending_place(*number, owner, Standing::Holds),
                low,
            );
        }
        first
    }
}

/// The first of two places, of which the second counts from a grant sequence on.
fn earlier(first: Option<Place>, other: Option<Place>, low: u64) -> Option<Place>
    ensures { result ≡ first_of (option_to_list first ++ from_grant_seq low (option_to_list other)) }
{
    match other {
        Some(place) => {
            if place.grant_seq >= low {
                Some(first_of_two(first, place))
            } else {
                first
            }
        }
        None => first,
    }
}

fn first_of_two(first: Option<Place>, place: Place) -> Place
    ensures { Some result ≡ first_of (option_to_list first ++ place ∷ []) }
{
    match first {
        Some(found) => {
            if found.grant_seq < place.grant_seq {
                found
            } else {
                place
            }
        }
        None => place,
    }
}
