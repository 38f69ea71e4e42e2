//! The same random calls on the indexed core and on the plain one.

use std::alloc::Global;
use std::hash::RandomState;
use std::test::Fail;
use wl_core::{LockCore, PlainCore};
use wl_index::{IndexCore, random_seed};
use wl_test_support::{do_list, opening};
use wl_types::Memory;

/// How many calls are made from one seed, and from how many seeds.
const CALLS: u64 = 400;

const SEEDS: u64 = 40;

/// The calls that are made, each as often as it stands here. A, R and S stand for numbers of agents, requests and
/// signals, of which most were given.
const KINDS: &[&str] = &[
    "open window",
    "open window",
    "open worker",
    "set A active",
    "set A inactive",
    "set A active",
    "signal A",
    "signal A",
    "take R",
    "take R",
    "take R",
    "release A R",
    "release A R",
    "release A R",
    "release A R",
    "release A R",
    "abort A S TimeoutError",
    "abort A S AbortError",
    "abort A S 0",
    "abort A S 65535",
    "terminate A",
    "query A",
    "request A a",
    "request A b",
    "request A a shared",
    "request A b shared",
    "request A c shared",
    "request A a shared",
    "request A a signal=S",
    "request A b shared signal=S",
    "request A b shared signal=S",
    "request A c shared available",
    "request A a available",
    "request A b steal",
    "request A c shared steal",
];

/// Numbers that look random: a xorshift generator.
#[derive(Drop)]
struct Dice {
    state: u64,
}

impl Dice {
    /// Below the number of sides; 0 where there are none.
    fn roll(&mut self, sides: u64) -> u64 {
        self.state ^= self.state.wrapping_shl(13);
        self.state ^= self.state >> 7;
        self.state ^= self.state.wrapping_shl(17);
        self.state.checked_rem(sides).unwrap_or(0)
    }

    /// One of the last numbers that were given, or one that was not.
    fn near(&mut self, last: u64) -> u64 {
        (last.saturating_add(1)).saturating_sub(self.roll(7))
    }

    fn kind(&mut self) -> &'static str {
        KINDS.get(self.roll(35) as usize).copied().unwrap_or("")
    }
}

/// The numbers that were given last.
#[derive(Clone, Copy)]
struct Last {
    agent: u64,
    request: u64,
    signal: u64,
}

impl Last {
    /// Notes what a call was answered: numbers are given in turn.
    fn note(&mut self, answer: &str) {
        if answer.starts_with("Agent") {
            self.agent = self.agent.saturating_add(1);
        } else if answer.starts_with("Request") {
            self.request = self.request.saturating_add(1);
        } else if answer.starts_with("Signal") {
            self.signal = self.signal.saturating_add(1);
        }
    }
}

/// The number that stands in the place of a word's letter, if it has one.
fn number(word: &str, dice: &mut Dice, last: Last) -> Option<u64> {
    match word {
        "A" => Some(dice.near(last.agent)),
        "R" => Some(dice.near(last.request)),
        "S" | "signal=S" => Some(dice.near(last.signal)),
        _ => None,
    }
}

/// What stands before the letter.
fn prefix(word: &str) -> &'static str {
    if word == "signal=S" { "signal=" } else { "" }
}

/// Adds a word of a kind and a space, with a number in the place of its letter.
fn add_word(call: &mut String, word: &str, number: Option<u64>) -> Result<(), Memory> {
    match number {
        Some(number) => write!(call, "{}{number} ", prefix(word))?,
        None => write!(call, "{word} ")?,
    }
    Ok(())
}

/// Random calls from one seed, one after another.
#[derive(Drop)]
struct Calls {
    dice: Dice,
    last: Last,
    text: String,
}

impl Calls {
    fn new(alloc: Global, seed: u64) -> Calls {
        let last = Last {
            agent: 0,
            request: 0,
            signal: 0,
        };
        Calls {
            dice: Dice { state: seed },
            last,
            text: String::new(alloc),
        }
    }

    /// Writes the next call in place of the one before.
    fn write_next(&mut self) -> Result<(), Memory> {
        self.text.clear();
        for word in self.dice.kind().split(' ') {
            add_word(
                &mut self.text,
                word,
                number(word, &mut self.dice, self.last),
            )?;
        }
        Ok(())
    }

    /// Notes what the call was answered.
    fn note(&mut self, line: &str) {
        let (_, answer) = line.split_once(" -> ").unwrap_or(("", ""));
        self.last.note(answer);
    }
}

/// Both cores, to which the same is done.
#[derive(Drop)]
struct Both {
    index: IndexCore,
    plain: PlainCore,
    calls: Calls,
}

impl Both {
    /// Whether both answer the next call alike, and then have the same state and tell the same changes.
    fn answer_alike(&mut self, alloc: Global) -> Result<bool, Memory> {
        self.calls.write_next()?;
        let line = do_list(alloc, &mut self.plain, self.calls.text.as_str())?;
        let other = do_list(alloc, &mut self.index, self.calls.text.as_str())?;
        self.calls.note(line.as_str());
        Ok(line.as_str() == other.as_str() && self.are_alike()?)
    }

    fn are_alike(&self) -> Result<bool, Memory> {
        let copy = self.index.copy_plain()?;
        let is_alike = self.plain.changes() == self.index.changes() && copy == self.plain;
        Ok(is_alike && self.index.copy_plain_in(copy)? == self.plain)
    }
}

/// How many calls are answered alike before the first after which the cores differ.
fn count_alike(alloc: Global, both: &mut Both) -> Result<u64, Memory> {
    for count in 0..CALLS {
        if !both.answer_alike(alloc)? {
            return Ok(count);
        }
    }
    Ok(CALLS)
}

fn count_from(alloc: Global, hash: RandomState, seed: u64) -> Result<u64, Memory> {
    let mut both = Both {
        index: opening(alloc, hash),
        plain: opening(alloc, ()),
        calls: Calls::new(alloc, seed),
    };
    count_alike(alloc, &mut both)
}

#[test]
fn both_cores_do_the_same(rt: HostRuntime) -> Result<(), Fail> {
    for seed in 1..=SEEDS {
        assert_eq!(rt;
            count_from(rt.alloc(), random_seed(&rt)?, seed)?,
            CALLS,
            "seed {seed}"
        );
    }
    Ok(())
}
