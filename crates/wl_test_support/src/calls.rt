//! Calls of a core as text, so that a test is a list of calls with what each is to answer.

use crate::answers::{answer, may_be, show, show_number};
use crate::ask;
use std::alloc::Global;
use wl_core::{Command, LockCore, apply};
use wl_types::{Ask, Kind, Memory, Mode, Reason, Refusal};

/// Does the calls of a list on the core, a call a line, and gives the list as it came out. A line is a call, an arrow
/// and its answer: `release 1 1 -> Released(Released), 2 Granted`. The answer is the reply, and then each change.
///
/// The calls are `open KIND`, `set AGENT active`, `signal AGENT`, `request AGENT NAME OPTION ..`, `take REQUEST`,
/// `release AGENT REQUEST`, `abort AGENT SIGNAL REASON`, `terminate AGENT` and `query AGENT`; with `may` before one of
/// the first four, what it would be refused; `untaken AGENT SIGNAL PLACE` and `above AGENT SIGNAL REQUEST`. The options
/// are `shared`, `available`, `steal` and `signal=SIGNAL`. A reason is `AbortError`, `TimeoutError` or a code.
pub fn do_list<C: LockCore>(alloc: Global, core: &mut C, list: &str) -> Result<String, Memory> {
    let mut came = String::new(alloc);
    for line in list.lines() {
        let (call, _) = line.split_once(" -> ").unwrap_or((line, ""));
        came.push_str(call)?;
        came.push_str(" -> ")?;
        came.push_str(do_call(alloc, core, call)?.as_str())?;
        came.push_str("\n")?;
    }
    Ok(came)
}

/// Does a call so many times, whatever it answers.
pub fn do_list_often<C: LockCore>(
    alloc: Global,
    core: &mut C,
    times: u64,
    call: &str,
) -> Result<(), Memory> {
    for _ in 0..times {
        do_call(alloc, core, call)?;
    }
    Ok(())
}

/// The words of a call, one after another.
#[derive(Drop)]
struct Words<'a> {
    rest: &'a str,
}

impl<'a> Words<'a> {
    /// Empty behind the last.
    fn next(&mut self) -> &'a str {
        let (word, rest) = self.rest.split_once(' ').unwrap_or((self.rest, ""));
        self.rest = rest;
        word
    }

    /// The next word's; 0, which nothing has, where it is no number.
    fn number(&mut self) -> u64 {
        self.next().parse::<u64>().unwrap_or(0)
    }
}

fn do_call<C: LockCore>(alloc: Global, core: &mut C, call: &str) -> Result<String, Memory> {
    let mut words = Words { rest: call };
    let word = words.next();
    match word {
        "may" => may_be(alloc, may(alloc, core, &mut words)),
        "untaken" => show_number(alloc, untaken(core, &mut words)),
        "above" => show_number(alloc, untaken_above(core, &mut words)),
        // It changes nothing, so what changed last is no part of its answer.
        "query" => show(alloc, &apply(core, &Command::Query(words.number()))),
        _ => {
            let command = command(alloc, word, &mut words)?;
            let reply = apply(core, &command);
            answer(alloc, &reply, core.changes())
        }
    }
}

fn may<C: LockCore>(alloc: Global, core: &C, words: &mut Words<'_>) -> Result<(), Refusal> {
    match words.next() {
        "open" => core.may_open(),
        "set" => core.may_set(words.number()),
        "signal" => core.may_signal(words.number()),
        _ => {
            let agent = words.number();
            match read_ask(alloc, words) {
                Ok(asked) => core.may_request(agent, &asked),
                Err(Memory) => Err(Refusal::Memory),
            }
        }
    }
}

fn untaken<C: LockCore>(core: &C, words: &mut Words<'_>) -> Option<u64> {
    let agent = words.number();
    let signal = words.number();
    core.untaken(agent, signal, words.number())
}

fn untaken_above<C: LockCore>(core: &C, words: &mut Words<'_>) -> Option<u64> {
    let agent = words.number();
    let signal = words.number();
    core.untaken_above(agent, signal, words.number())
}

fn command(alloc: Global, word: &str, words: &mut Words<'_>) -> Result<Command, Memory> {
    if word == "open" {
        return Ok(Command::Enter(kind(words.next())));
    }
    let number = words.number();
    if word == "request" {
        return Ok(Command::Request(number, read_ask(alloc, words)?));
    }
    Ok(numbered_command(word, number, words))
}

/// A command that begins with a number, and wants no memory.
fn numbered_command(word: &str, number: u64, words: &mut Words<'_>) -> Command {
    match word {
        "set" => Command::SetActive(number, words.next() == "active"),
        "signal" => Command::NewSignal(number),
        "take" => Command::Take(number),
        "release" => Command::Release(number, words.number()),
        "abort" => Command::Abort(number, words.number(), reason(words.next())),
        "terminate" => Command::Terminate(number),
        // The answer to an unknown word is one that no list wants.
        _ => Command::Query(number),
    }
}

fn kind(word: &str) -> Kind {
    if word == "worker" {
        Kind::Worker
    } else {
        Kind::Window
    }
}

fn reason(word: &str) -> Reason {
    if word == "TimeoutError" {
        return Reason::TimeoutError;
    }
    match word.parse::<u16>() {
        Ok(code) => Reason::Code(code),
        Err(_) => Reason::AbortError,
    }
}

/// A name, and then options in any order.
fn read_ask(alloc: Global, words: &mut Words<'_>) -> Result<Ask, Memory> {
    let mut asked = ask(alloc, words.next(), Mode::Exclusive)?;
    for option in words.rest.split(' ') {
        set_option(&mut asked, option);
    }
    Ok(asked)
}

fn set_option(asked: &mut Ask, option: &str) {
    match option {
        "shared" => asked.mode = Mode::Shared,
        "available" => asked.if_available = true,
        "steal" => asked.steal = true,
        _ => {
            if let Some(number) = option.strip_prefix("signal=") {
                asked.signal = number.parse::<u64>().ok();
            }
        }
    }
}
