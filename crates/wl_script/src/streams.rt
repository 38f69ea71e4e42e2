//! What a run reads from and writes to.

ghost use Rattle.std.specs.Prelude.{◌≡◌, ◌≤◌, ◌==◌, ◌&&◌, ℕ, List, Option, length, IfOk, is_err, MatchResult, nat_lt};
ghost use Rattle.std.specs.Prelude.{true};
ghost use Rattle.std.specs.Io.KnownBytes.{ReadConsumes, WriteAppends};
ghost use Rattle.wl_script.specs.Streams.{Counts, one_more};

/// A read or a write failed.
#[derive(Clone, Copy, Debug, PartialEq, Eq, Drop)]
pub struct Failed;

/// Gives bytes. It tells its contracts which, how many reads were made, and how often one has failed.
pub trait Input {
    /// The bytes that are still to come, where they are known.
    ghost rest: { Self → Option (List ℕ) };

    /// How many reads were made, to 2^64.
    ghost reads: { Self → ℕ };

    /// How often a read has failed, to 2^64.
    ghost failures: { Self → ℕ };

    /// Reads some bytes to the front of `buf`, and says how many. None where `buf` has room says that no more come.
    fn read(&mut self, buf: &mut [u8]) -> Result<usize, Failed>
        ensures bound { IfOk result (λ n. n ≤ length buf.new) }
        ensures bytes { ReadConsumes (rest self.old) (rest self.new) result buf.new }
        ensures made { reads self.new ≡ one_more (reads self.old) }
        ensures counted { Counts (failures self.old) (failures self.new) (is_err result) };
}

/// Takes bytes. It tells its contracts which, and how often it has failed.
pub trait Output {
    /// The bytes that were taken so far, where they are known.
    ghost held: { Self → Option (List ℕ) };

    /// How often a write has failed, to 2^64.
    ghost failures: { Self → ℕ };

    /// Takes some bytes from the front of `piece`, and says how many. To take none of a piece that has bytes is to
    /// fail, and counts as a failure.
    fn write(&mut self, piece: &[u8]) -> Result<usize, Failed>
        ensures bound { IfOk result (λ n. n ≤ length piece.now) }
        ensures bytes { WriteAppends (held self.old) (held self.new) result piece.now }
        ensures counted { MatchResult result
            (λ n. Counts (failures self.old) (failures self.new) ((n == 0) && nat_lt 0 (length piece.now)))
            (λ _. Counts (failures self.old) (failures self.new) true) };
}
