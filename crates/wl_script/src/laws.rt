//! Laws of scripts. Each is the contract of a function without a body.

ghost use Rattle.wl_script.specs.Laws.{LinesAreAnsweredInTurn, RunsAreIsolated, ScriptsAreLines, ScriptsMayBeCut};
ghost use Rattle.wl_script.specs.Laws.{TranscriptsAreReplies};

/// A script is its lines, each with its LF, and then a last one without LF, if that has a byte.
pub fn scripts_are_lines()
    ensures { ScriptsAreLines }
{}

/// A transcript is made of one line's reply at a time, each in the world that the lines before it left.
pub fn lines_are_answered_in_turn()
    ensures { LinesAreAnsweredInTurn }
{}

/// A script may be cut behind any LF: two runs, the second in the world that the first left, write what one run of
/// the whole writes.
pub fn scripts_may_be_cut()
    ensures { ScriptsMayBeCut }
{}

/// A transcript is the replies to the lines, each with LF: so what `wl_world::laws` says of the replies to an origin's
/// lines is said of what a run writes.
pub fn transcripts_are_replies()
    ensures { TranscriptsAreReplies }
{}

/// Two runs over inputs that have the same lines of a bucket of an origin wrote the same replies to them: so what other
/// origins and other buckets are told to do plays no part in the bytes that answer these lines.
pub fn runs_are_isolated()
    ensures { RunsAreIsolated }
{}
