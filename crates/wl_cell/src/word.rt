//! Phases as words. This file and specs/Words.antt are the only ones that know which word stands for which phase.

ghost use Rattle.std.specs.Prelude.{◌≡◌, ◌+◌, ◌<◌};
ghost use Rattle.wl_cell.specs.Words.{word_of, reason_number, reason_count, word_count};
ghost use Rattle.wl_types.specs.declared.phases.Phase.{Phase};
ghost use Rattle.wl_types.specs.declared.words.Reason.{Reason};

use wl_types::{Phase, Reason};

pub(crate) fn word_of(phase: Phase) -> u64
    ensures word { result ≡ word_of phase }
    ensures range { word_of phase < word_count }
{
    match phase {
        Phase::Pending => 0,
        Phase::Granted => 1,
        Phase::Taken => 2,
        Phase::Unavailable => 3,
        Phase::Released => 4,
        Phase::Stolen => 5,
        Phase::Aborted(reason) => 6 + reason_number(reason),
    }
}

pub(crate) fn phase_of(word: u64) -> Phase
    requires { word < word_count }
    ensures { (phase : Phase) → word ≡ word_of phase → result ≡ phase }
{
    match word {
        0 => Phase::Pending,
        1 => Phase::Granted,
        2 => Phase::Taken,
        3 => Phase::Unavailable,
        4 => Phase::Released,
        5 => Phase::Stolen,
        aborted => Phase::Aborted(reason_of(aborted - 6)),
    }
}

fn reason_number(reason: Reason) -> u64
    ensures number { result ≡ reason_number reason }
    ensures range { reason_number reason < reason_count }
{
    match reason {
        Reason::AbortError => 0,
        Reason::TimeoutError => 1,
        Reason::Code(code) => 2 + u64::from(code),
    }
}

fn reason_of(number: u64) -> Reason
    requires { number < reason_count }
    ensures { (reason : Reason) → number ≡ reason_number reason → result ≡ reason }
{
    match number {
        0 => Reason::AbortError,
        1 => Reason::TimeoutError,
        code => Reason::Code((code - 2) as u16),
    }
}
