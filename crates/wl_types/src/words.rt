//! Modes, kinds and reasons.

ghost use Rattle.std.specs.Prelude.{◌≡◌};
ghost use Rattle.wl_types.specs.Words.{mode_word, reason_name};

/// Web Locks' `LockMode`.
#[derive(Clone, Copy, Debug, PartialEq, Eq, Drop)]
pub enum Mode {
    Exclusive,
    Shared,
}

/// What an agent is. A worker is always active, a window until it is made inactive.
#[derive(Clone, Copy, Debug, PartialEq, Eq, Drop)]
pub enum Kind {
    Window,
    Worker,
}

/// Why a signal was aborted.
#[derive(Clone, Copy, Debug, PartialEq, Eq, Drop)]
pub enum Reason {
    AbortError,
    TimeoutError,
    /// A number that means what whoever aborts has it mean. No two codes are one reason, and none is a named one.
    Code(u16),
}

impl Mode {
    /// The word of Web Locks for the mode.
    pub fn word(&self) -> &'static str
        ensures { result.now ≡ mode_word self.now }
    {
        match self {
            Mode::Exclusive => "exclusive",
            Mode::Shared => "shared",
        }
    }
}

impl Reason {
    /// The name of an error for this reason: that of the DOM exception which stands for it, or `AbortCode`, beside
    /// which the code is told too.
    pub fn name(&self) -> &'static str
        ensures { result.now ≡ reason_name self.now }
    {
        match self {
            Reason::AbortError => "AbortError",
            Reason::TimeoutError => "TimeoutError",
            Reason::Code(_) => "AbortCode",
        }
    }
}
