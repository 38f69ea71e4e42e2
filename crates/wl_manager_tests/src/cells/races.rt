//! A take and an abort of one granted lock, on two threads.

ghost use Rattle.std.specs.Prelude.{◌≡◌};
ghost use Rattle.wl_types.specs.declared.phases.Phase.TheVariants.{Granted};

use std::alloc::Global;
use std::test::Fail;
use std::thread;
use std::thread::Threads;
use wl_cell::{Keeper, Owner, Taking, cell};
use wl_types::{Memory, Phase, Reason};

/// What the abort answers, what the take, and where the cell is then.
type Outcome = (bool, Taking, Phase);

const TAKE_WON: Outcome = (false, Taking::Taken, Phase::Taken);

/// Why it is aborted, each for a thousand races.
const REASONS: &[Reason] = &[
    Reason::AbortError,
    Reason::TimeoutError,
    Reason::Code(0),
    Reason::Code(65535),
];

fn abort_won(reason: Reason) -> Outcome {
    let aborted = Phase::Aborted(reason);
    (true, Taking::Before(aborted), aborted)
}

fn race<R: Threads + Sync>(rt: &R, keeper: Keeper, owner: Owner, reason: Reason) -> Outcome
    requires { keeper.phase ≡ Granted }
{
    let mut keeper = keeper;
    let mut owner = owner;
    let abort = move || -> bool
        requires { keeper.phase ≡ Granted }
    { keeper.try_abort(reason) };
    let take = move || -> (Taking, Owner) {
        let taking = owner.take();
        (taking, owner)
    };
    let (aborted, (taking, mut owner)) = thread::join(rt, abort, take);
    (aborted, taking, owner.look())
}

fn race_anew<R: Threads + Sync>(rt: &R, alloc: Global, reason: Reason) -> Result<Outcome, Memory> {
    let (mut keeper, owner) = cell(alloc)?;
    keeper.settle(Phase::Granted);
    Ok(race(rt, keeper, owner, reason))
}

/// The first outcome of a thousand that is neither the take's nor the abort's.
fn first_wrong<R: Threads + Sync>(
    rt: &R,
    alloc: Global,
    reason: Reason,
) -> Result<Option<Outcome>, Memory> {
    for _ in 0..1000 {
        let outcome = race_anew(rt, alloc, reason)?;
        if outcome != TAKE_WON && outcome != abort_won(reason) {
            return Ok(Some(outcome));
        }
    }
    Ok(None)
}

#[test]
fn a_take_and_an_abort_race_a_thousand_times(rt: HostRuntime) -> Result<(), Fail> {
    for reason in REASONS {
        assert_eq!(rt; first_wrong(&rt, rt.alloc(), *reason)?, None);
    }
    Ok(())
}
