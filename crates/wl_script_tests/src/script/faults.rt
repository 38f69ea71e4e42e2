//! What each fault says and leaves.

/// A failed read leaves the lines before it.
pub const READS: &str = "\
run three piece=1 fails -> Err(Read(2)) Some(132) 2
run three piece=3 fails -> Err(Read(2)) Some(132) 2
run three piece=100 fails -> Err(Read(2)) Some(132) 2
";

/// A failed write leaves a part of the next reply, where it fails and where it takes none.
pub const WRITES: &str = "\
run three room=0 -> Err(Write(0)) Some(0) 1
run three room=0 none -> Err(Write(0)) Some(0) 1
run three room=1 -> Err(Write(0)) Some(1) 2
run three room=1 none -> Err(Write(0)) Some(1) 2
run three room=65 -> Err(Write(0)) Some(65) 2
run three room=65 none -> Err(Write(0)) Some(65) 2
run three room=66 -> Err(Write(1)) Some(66) 2
run three room=66 none -> Err(Write(1)) Some(66) 2
run three room=67 -> Err(Write(1)) Some(67) 3
run three room=67 none -> Err(Write(1)) Some(67) 3
run three room=131 -> Err(Write(1)) Some(131) 3
run three room=131 none -> Err(Write(1)) Some(131) 3
run three room=132 -> Err(Write(2)) Some(132) 3
run three room=132 none -> Err(Write(2)) Some(132) 3
run three room=197 -> Err(Write(2)) Some(197) 4
run three room=197 none -> Err(Write(2)) Some(197) 4
";

/// Refused memory leaves the lines before it.
pub const REFUSALS: &str = "\
refused 0 -> Err(Memory(0)) Some(0) 0
refused 1 -> Err(Memory(1)) Some(66) 1
refused 2 -> Err(Memory(2)) Some(132) 2
";

/// Nothing is written without random words.
pub const NO_RANDOM: &str = "\
run_unseeded three -> Err(Memory(0)) Some(0) 0
run_unseeded three reads=1000 -> Err(Memory(0)) Some(0) 0
audit_unseeded three -> Err(Memory(0)) Some(0) 0
";

/// The texts of the faults, by their place.
pub const TEXTS: &str = "\
fault 0 -> out of memory after line 0
fault 1 -> cannot read after line 1
fault 2 -> cannot write after line 2
fault 3 -> line too long after line 3
fault 4 -> too many reads after line 4
";
