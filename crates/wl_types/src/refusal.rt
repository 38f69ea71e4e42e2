//! Why a command is refused.

ghost use Rattle.std.specs.Prelude.{◌≡◌, Some};
ghost use Rattle.wl_types.specs.Words.{refusal_code, refusal_name, refusal_number, refusal_rule, refusal_text};

use crate::words::Reason;
use std::error::Error;
use std::fmt;

/// Why a command changed nothing and used up no number. docs/FORMATS.md has the table of all refusals and the
/// order in which a command's are looked for.
#[derive(Clone, Copy, Debug, PartialEq, Eq, Drop)]
pub enum Refusal {
    /// The agent is a window that was made inactive (Web Locks, `request()` and `query()`: not fully active).
    InvalidState,
    /// The agent's origin is opaque, so it has no manager (Storage, "obtain a local storage bottle map").
    Security,
    /// The name starts with `-`.
    ReservedName,
    /// `steal` and `ifAvailable` are both set.
    StealIfAvailable,
    /// `steal` asks for mode shared.
    StealShared,
    /// A signal stands beside `steal` or `ifAvailable`.
    SignalCombined,
    /// The signal was aborted, for this reason.
    SignalAborted(Reason),
    /// The name has more than 1,024 bytes of UTF-8.
    NameTooLong,
    /// The agent has no signal of that number; another agent's is no exception.
    NoSuchSignal,
    /// 65,536 requests of the manager are live.
    TooManyRequests,
    /// The agent has made 1,024 signals.
    TooManySignals,
    /// 4,096 agents of the manager are live.
    TooManyAgents,
    /// The next number would be 2^53.
    NumbersSpent,
    /// No live agent has that number.
    NoSuchAgent,
    /// A worker can't be made active or inactive.
    NotAWindow,
    /// A growth was refused. It is tried only where no other refusal applies.
    Memory,
}

/// The name and the rule, as `NotSupportedError/reserved-name`. The code of a reason stands behind the name, as
/// `AbortCode 7/signal-aborted`.
impl fmt::Display for Refusal {
    ghost output = { λ refusal. Some (refusal_text refusal) };

    fn fmt<W: fmt::Write>(&self, f: &mut fmt::Formatter<W>) -> fmt::Result {
        let name = self.name();
        let rule = self.rule();
        match self.code() {
            Some(code) => write!(f, "{name} {code}/{rule}"),
            None => write!(f, "{name}/{rule}"),
        }
    }
}

impl Error for Refusal {}

impl Refusal {
    /// The `name` that a reply gives: the DOM exception of Web Locks where the standard has one. `AbortCode` has a code
    /// beside it.
    pub fn name(&self) -> &'static str
        ensures { result.now ≡ refusal_name self.now }
    {
        match self {
            Refusal::InvalidState => "InvalidStateError",
            Refusal::Security => "SecurityError",
            Refusal::ReservedName
            | Refusal::StealIfAvailable
            | Refusal::StealShared
            | Refusal::SignalCombined => "NotSupportedError",
            Refusal::SignalAborted(reason) => reason.name(),
            Refusal::NameTooLong
            | Refusal::TooManyRequests
            | Refusal::TooManySignals
            | Refusal::TooManyAgents
            | Refusal::NumbersSpent => "Limit",
            Refusal::NoSuchSignal | Refusal::NoSuchAgent => "NoSuch",
            Refusal::NotAWindow => "NotAWindow",
            Refusal::Memory => "Memory",
        }
    }

    /// The `rule` that a reply gives: which check refused. These words are this project's.
    pub fn rule(&self) -> &'static str
        ensures { result.now ≡ refusal_rule self.now }
    {
        match self {
            Refusal::InvalidState => "inactive",
            Refusal::Security => "opaque-origin",
            Refusal::ReservedName => "reserved-name",
            Refusal::StealIfAvailable => "steal-if-available",
            Refusal::StealShared => "steal-shared",
            Refusal::SignalCombined => "signal-combined",
            Refusal::SignalAborted(_) => "signal-aborted",
            Refusal::NameTooLong => "name-length",
            Refusal::NoSuchSignal => "signal",
            Refusal::TooManyRequests => "requests",
            Refusal::TooManySignals => "signals",
            Refusal::TooManyAgents => "agents",
            Refusal::NumbersSpent => "numbers",
            Refusal::NoSuchAgent => "agent",
            Refusal::NotAWindow => "active",
            Refusal::Memory => "memory",
        }
    }

    /// The code with which the signal was aborted, where it was one: without it the name and the rule don't tell the
    /// reason.
    pub fn code(&self) -> Option<u16>
        ensures { result ≡ refusal_code self.now }
    {
        match self {
            Refusal::SignalAborted(Reason::Code(code)) => Some(*code),
            _ => None,
        }
    }

    /// The refusal's number in the table of docs/FORMATS.md.
    pub fn number(&self) -> u64
        ensures { result ≡ refusal_number self.now }
    {
        match self {
            Refusal::InvalidState => 1,
            Refusal::Security => 2,
            Refusal::ReservedName => 3,
            Refusal::StealIfAvailable => 4,
            Refusal::StealShared => 5,
            Refusal::SignalCombined => 6,
            Refusal::SignalAborted(_) => 7,
            Refusal::NameTooLong => 8,
            Refusal::NoSuchSignal => 9,
            Refusal::TooManyRequests => 10,
            Refusal::TooManySignals => 11,
            Refusal::TooManyAgents => 12,
            Refusal::NumbersSpent => 13,
            Refusal::NoSuchAgent => 14,
            Refusal::NotAWindow => 15,
            Refusal::Memory => 16,
        }
    }
}
