//! What a manager lists of its locks, and since when.

use super::plain::{PlainAgent, PlainManager, PlainTicket};
use std::alloc::Global;
use std::process::Abort;
use std::sync::Wait;
use std::test::Fail;
use wl_manager::{CoarseClock, LockList, LockRow};
use wl_test_support::ask;
use wl_types::{Kind, Memory, Mode};

/// A manager with a clock, its two agents, and the tickets of their requests.
#[derive(Drop)]
struct Watched {
    alloc: Global,
    clock: CoarseClock,
    manager: PlainManager,
    agents: Vec<PlainAgent>,
    tickets: Vec<PlainTicket>,
}

impl Watched {
    fn new<R: Wait>(rt: &R, alloc: Global) -> Result<Watched, Fail> {
        let clock = CoarseClock::new(alloc)?;
        let manager = PlainManager::with_clock(rt, alloc, clock.share()?)?;
        let mut agents = Vec::new(alloc);
        for _ in 0..2 {
            agents.push(manager.open(rt, Kind::Window)?)?;
        }
        Ok(Watched {
            alloc,
            clock,
            manager,
            agents,
            tickets: Vec::new(alloc),
        })
    }

    /// A request of the agent at this place, at this time.
    fn request<R: Wait>(
        &mut self,
        rt: &R,
        now: u64,
        place: usize,
        name: &str,
        mode: Mode,
    ) -> Result<(), Fail> {
        self.clock.set(now);
        let Some(agent) = self.agents.get_mut(place) else {
            return Err(Fail::new("nobody is there"));
        };
        let ticket = agent.request(rt, &ask(self.alloc, name, mode)?)?;
        Ok(self.tickets.push(ticket)?)
    }

    /// The first agent gives up the lock of the first ticket, at this time.
    fn release<R: Wait>(&mut self, rt: &R, now: u64) {
        self.clock.set(now);
        if let (Some(agent), Some(ticket)) = (self.agents.get_mut(0), self.tickets.get_mut(0)) {
            agent.release(rt, ticket);
        }
    }

    /// At 100 the first agent asks for `db` for itself, at 200 the second, at 300 the first to share it, at 400 the
    /// second to share `log`.
    fn ask_for_four<R: Wait>(&mut self, rt: &R) -> Result<(), Fail> {
        self.request(rt, 100, 0, "db", Mode::Exclusive)?;
        self.request(rt, 200, 1, "db", Mode::Exclusive)?;
        self.request(rt, 300, 0, "db", Mode::Shared)?;
        self.request(rt, 400, 1, "log", Mode::Shared)
    }

    fn show_list<R: Wait>(&self, rt: &R, most: usize, now: u64) -> Result<String, Memory> {
        show_rows(self.alloc, &self.manager.list_locks(rt, most, now)?)
    }
}

fn put_row(alloc: Global, text: &mut String, row: &LockRow) -> Result<(), Memory> {
    let name = row.name.as_str();
    let who = format!(in alloc; "{} of {}: {name}", row.request, row.client)?;
    let since = format!(in alloc;
        " {:?} {} {:?}\n",
        row.mode, row.since_asked, row.since_granted
    )?;
    text.push_str(who.as_str())?;
    text.push_str(since.as_str())?;
    Ok(())
}

/// The locks, then what waits, then how many were left out.
fn show_rows(alloc: Global, list: &LockList) -> Result<String, Memory> {
    let mut text = String::new(alloc);
    for row in &list.held {
        put_row(alloc, &mut text, row)?;
    }
    text.push_str("waiting\n")?;
    for row in &list.pending {
        put_row(alloc, &mut text, row)?;
    }
    let left_out = format!(in alloc; "and {}", list.left_out)?;
    text.push_str(left_out.as_str())?;
    Ok(text)
}

const ALL_FOUR: &str = "\
1 of 1: db Exclusive 900 Some(900)
4 of 2: log Shared 600 Some(600)
waiting
2 of 2: db Exclusive 800 None
3 of 1: db Shared 700 None
and 0";

const THREE: &str = "\
1 of 1: db Exclusive 900 Some(900)
4 of 2: log Shared 600 Some(600)
waiting
2 of 2: db Exclusive 800 None
and 1";

const ONE: &str = "\
1 of 1: db Exclusive 900 Some(900)
waiting
and 3";

const NONE: &str = "\
waiting
and 4";

/// The first lock was given up at 500.
const HANDED_OVER: &str = "\
4 of 2: log Shared 600 Some(600)
2 of 2: db Exclusive 800 Some(500)
waiting
3 of 1: db Shared 700 None
and 0";

/// Of each list how many rows it may have, and how it reads at 1000.
fn assert_lists<R: Wait + Abort>(
    rt: &R,
    watched: &Watched,
    lists: &[(usize, &str)],
) -> Result<(), Memory> {
    for (most, wanted) in lists {
        assert_eq!(rt; watched.show_list(rt, *most, 1000)?.as_str(), *wanted);
    }
    Ok(())
}

/// Before there is a lock, with four requests, and once the first of them is over.
fn assert_all_lists<R: Wait + Abort>(rt: &R, watched: &mut Watched) -> Result<(), Fail> {
    assert_lists(rt, watched, &[(10, "waiting\nand 0")])?;
    watched.ask_for_four(rt)?;
    assert_lists(
        rt,
        watched,
        &[(4, ALL_FOUR), (3, THREE), (1, ONE), (0, NONE)],
    )?;
    watched.release(rt, 500);
    Ok(assert_lists(rt, watched, &[(10, HANDED_OVER)])?)
}

#[test]
fn a_manager_lists_locks_and_requests_with_their_times(rt: HostRuntime) -> Result<(), Fail> {
    assert_all_lists(&rt, &mut Watched::new(&rt, rt.alloc())?)
}

/// Several hosts set the clock, and one of them may be late.
#[test]
fn a_clock_goes_on(rt: HostRuntime) -> Result<(), Fail> {
    let clock = CoarseClock::new(rt.alloc())?;
    let other = clock.share()?;
    assert_eq!(rt; clock.now(), 0);
    other.set(7);
    clock.set(5);
    assert_eq!(rt; (clock.now(), other.now()), (7, 7));
    Ok(())
}
