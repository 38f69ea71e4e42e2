//! The words of a lock manager: limits, orders, names of faults.

use std::alloc::Global;
use std::test::Fail;
use wl_test_support::{ask, fail_refused};
use wl_types::{
    Infos, Kind, LockInfo, Memory, Mode, Name, Phase, Reason, Refusal, Text, client_text,
};

/// How many bytes the name has that repeats a text so often, or what it is refused.
fn name_length(alloc: Global, text: &str, times: usize) -> Result<Result<usize, Refusal>, Memory> {
    let mut long = String::new(alloc);
    for _ in 0..times {
        long.push_str(text)?;
    }
    Ok(Name::of(alloc, long.as_str()).map(|name| name.as_str().len()))
}

/// The limit counts bytes: 205 times three characters of five bytes are 1025.
const LENGTHS: &[(&str, usize, Result<usize, Refusal>)] = &[
    ("", 1, Ok(0)),
    ("x", 1024, Ok(1024)),
    ("x", 1025, Err(Refusal::NameTooLong)),
    ("\u{20ac}xx", 204, Ok(1020)),
    ("\u{20ac}xx", 205, Err(Refusal::NameTooLong)),
    ("-x", 1, Err(Refusal::ReservedName)),
];

#[test]
fn a_name_has_at_most_1024_bytes_and_is_not_reserved(rt: HostRuntime) -> Result<(), Fail> {
    for (text, times, wanted) in LENGTHS {
        assert_eq!(rt;
            name_length(rt.alloc(), text, *times)?,
            *wanted,
            "{text} {times}"
        );
    }
    Ok(())
}

/// Whether a name and its copy are another name, by each way to compare.
fn are_one_name(alloc: Global, one: &str, other: &str) -> Result<(bool, bool), Fail> {
    let name = Name::of(alloc, one)?;
    let copy = name.copy(alloc)?;
    let other = Name::of(alloc, other)?;
    Ok((name == other, copy.same(&other)))
}

const PAIRS: &[(&str, &str, bool)] = &[
    ("Aa", "BB", false),
    ("a", "A", false),
    ("BB", "BB", true),
    ("", "", true),
];

#[test]
fn names_are_equal_by_their_bytes(rt: HostRuntime) -> Result<(), Fail> {
    for (one, other, wanted) in PAIRS {
        assert_eq!(rt;
            are_one_name(rt.alloc(), one, other)?,
            (*wanted, *wanted),
            "{one} {other}"
        );
    }
    Ok(())
}

/// What the check says of a request of this name.
fn check_ask(alloc: Global, name: &str, options: Options) -> Result<Result<(), Refusal>, Memory> {
    let mut asked = ask(alloc, name, options.mode)?;
    asked.if_available = options.if_available;
    asked.steal = options.steal;
    asked.signal = options.signal;
    Ok(asked.check())
}

#[derive(Clone, Copy)]
struct Options {
    mode: Mode,
    if_available: bool,
    steal: bool,
    signal: Option<u64>,
}

/// All that can be wrong at once.
const WORST: Options = Options {
    mode: Mode::Shared,
    if_available: true,
    steal: true,
    signal: Some(1),
};

#[test]
fn the_first_check_that_fails_is_answered(rt: HostRuntime) -> Result<(), Fail> {
    let mut options = WORST;
    assert!(rt; check_ask(rt.alloc(), "-x", options)? == Err(Refusal::ReservedName));
    assert!(rt; check_ask(rt.alloc(), "x", options)? == Err(Refusal::StealIfAvailable));
    options.if_available = false;
    assert!(rt; check_ask(rt.alloc(), "x", options)? == Err(Refusal::StealShared));
    options.mode = Mode::Exclusive;
    assert!(rt; check_ask(rt.alloc(), "x", options)? == Err(Refusal::SignalCombined));
    options.signal = None;
    assert!(rt; check_ask(rt.alloc(), "x", options)? == Ok(()));
    Ok(())
}

const REFUSALS: &[(Refusal, &str)] = &[
    (Refusal::InvalidState, "1 InvalidStateError/inactive"),
    (Refusal::Security, "2 SecurityError/opaque-origin"),
    (Refusal::ReservedName, "3 NotSupportedError/reserved-name"),
    (
        Refusal::StealIfAvailable,
        "4 NotSupportedError/steal-if-available",
    ),
    (Refusal::StealShared, "5 NotSupportedError/steal-shared"),
    (
        Refusal::SignalCombined,
        "6 NotSupportedError/signal-combined",
    ),
    (
        Refusal::SignalAborted(Reason::TimeoutError),
        "7 TimeoutError/signal-aborted",
    ),
    (
        Refusal::SignalAborted(Reason::AbortError),
        "7 AbortError/signal-aborted",
    ),
    (
        Refusal::SignalAborted(Reason::Code(7)),
        "7 AbortCode 7/signal-aborted",
    ),
    (
        Refusal::SignalAborted(Reason::Code(65535)),
        "7 AbortCode 65535/signal-aborted",
    ),
    (Refusal::NameTooLong, "8 Limit/name-length"),
    (Refusal::NoSuchSignal, "9 NoSuch/signal"),
    (Refusal::TooManyRequests, "10 Limit/requests"),
    (Refusal::TooManySignals, "11 Limit/signals"),
    (Refusal::TooManyAgents, "12 Limit/agents"),
    (Refusal::NumbersSpent, "13 Limit/numbers"),
    (Refusal::NoSuchAgent, "14 NoSuch/agent"),
    (Refusal::NotAWindow, "15 NotAWindow/active"),
    (Refusal::Memory, "16 Memory/memory"),
];

#[test]
fn a_refusal_has_a_name_a_rule_and_a_number(rt: HostRuntime) -> Result<(), Fail> {
    for (refusal, wanted) in REFUSALS {
        let text = format!(in rt.alloc(); "{} {refusal}", refusal.number())?;
        assert_eq!(rt; text.as_str(), *wanted);
    }
    Ok(())
}

/// All codes have one name.
const REASONS: &[(Reason, &str, Option<u16>)] = &[
    (Reason::AbortError, "AbortError", None),
    (Reason::TimeoutError, "TimeoutError", None),
    (Reason::Code(0), "AbortCode", Some(0)),
    (Reason::Code(1), "AbortCode", Some(1)),
    (Reason::Code(65535), "AbortCode", Some(65535)),
];

#[test]
fn a_reason_has_a_name_and_a_refusal_its_code(rt: HostRuntime) {
    for (reason, name, code) in REASONS {
        assert_eq!(rt; reason.name(), *name);
        assert_eq!(rt; Refusal::SignalAborted(*reason).name(), *name);
        assert_eq!(rt; Refusal::SignalAborted(*reason).code(), *code);
    }
    assert_eq!(rt; Refusal::NoSuchSignal.code(), None);
}

/// Whether two reasons are equal, what is refused for them, and what ends for them.
fn are_equal(one: Reason, other: Reason) -> (bool, bool, bool) {
    (
        one == other,
        Refusal::SignalAborted(one) == Refusal::SignalAborted(other),
        Phase::Aborted(one) == Phase::Aborted(other),
    )
}

const APART: &[(Reason, Reason)] = &[
    (Reason::AbortError, Reason::TimeoutError),
    (Reason::AbortError, Reason::Code(0)),
    (Reason::TimeoutError, Reason::Code(1)),
    (Reason::Code(7), Reason::Code(8)),
    (Reason::Code(0), Reason::Code(256)),
    (Reason::Code(0), Reason::Code(65535)),
];

#[test]
fn reasons_are_equal_where_their_codes_are(rt: HostRuntime) {
    for (one, other) in APART {
        assert_eq!(rt; are_equal(*one, *other), (false, false, false));
        assert_eq!(rt; are_equal(*one, *one), (true, true, true));
        assert_eq!(rt; are_equal(*other, *other), (true, true, true));
    }
}

#[test]
fn a_want_of_memory_has_its_text(rt: HostRuntime) -> Result<(), Fail> {
    let text = format!(in rt.alloc(); "{}", Memory)?;
    assert_eq!(rt; text.as_str(), "out of memory");
    Ok(())
}

/// The locks of two clients, in the order in which they were put in.
fn list_locks(alloc: Global) -> Result<String, Fail> {
    let mut infos = Infos::new(alloc);
    for client in [2, 1] {
        infos.push(LockInfo {
            name: Name::of(alloc, "db")?,
            mode: Mode::Shared,
            client,
        })?;
    }
    let mut text = String::new(alloc);
    for info in infos.as_slice() {
        let name = info.name.as_str();
        let line = format!(in alloc; "{name} {} {},", info.mode.word(), info.client)?;
        text.push_str(line.as_str())?;
    }
    Ok(text)
}

#[test]
fn a_list_keeps_its_order(rt: HostRuntime) -> Result<(), Fail> {
    assert_eq!(rt;
        list_locks(rt.alloc())?.as_str(),
        "db shared 2,db shared 1,"
    );
    assert_eq!(rt; client_text(rt.alloc(), 12)?.as_str(), "client-12");
    Ok(())
}

const ENDS: &[(Phase, bool)] = &[
    (Phase::Unavailable, true),
    (Phase::Aborted(Reason::AbortError), true),
    (Phase::Aborted(Reason::Code(0)), true),
    (Phase::Released, true),
    (Phase::Stolen, true),
    (Phase::Pending, false),
    (Phase::Granted, false),
    (Phase::Taken, false),
];

#[test]
fn ends_are_ends(rt: HostRuntime) {
    for (phase, is_end) in ENDS {
        assert_eq!(rt; phase.is_end(), *is_end, "{phase:?}");
    }
    assert!(rt; Phase::Pending.is_pending() && !Phase::Granted.is_pending());
    assert_eq!(rt; Mode::Exclusive.word(), "exclusive");
    assert!(rt; Kind::Window != Kind::Worker);
}

/// A name, a text, a client and a list that are refused memory are told so, and are made when they are asked for again.
fn try_words(alloc: Global) -> Result<(), Fail> {
    match Name::of(alloc, "db") {
        Ok(_) => {}
        Err(refusal) => {
            return fail_refused(refusal == Refusal::Memory && Name::of(alloc, "db").is_ok());
        }
    }
    if Text::of(alloc, "db").is_err() {
        return fail_refused(Text::of(alloc, "db").is_ok());
    }
    match client_text(alloc, 12) {
        Ok(_) => Ok(()),
        Err(Memory) => fail_refused(client_text(alloc, 12)?.as_str() == "client-12"),
    }
}

fn try_list(alloc: Global) -> Result<(), Fail> {
    let mut infos = Infos::new(alloc);
    if infos.push(info(alloc)?).is_ok() {
        return Ok(());
    }
    let is_as_before = infos.as_slice().is_empty();
    infos.push(info(alloc)?)?;
    fail_refused(is_as_before && infos.as_slice().len() == 1)
}

fn info(alloc: Global) -> Result<LockInfo, Fail> {
    Ok(LockInfo {
        name: Name::of(alloc, "db")?,
        mode: Mode::Shared,
        client: 1,
    })
}

#[test]
fn a_refused_growth_makes_no_word(rt: HostRuntime) -> Result<(), Fail> {
    try_words(rt.alloc())?;
    try_list(rt.alloc())
}
