//! The numbers of requests that may have changed.

ghost use Rattle.std.specs.Prelude.{◌≡◌, ◌↔◌, ℕ, true};
ghost use Rattle.std.specs.List.{Contains};
ghost use Rattle.std.specs.List.Sorted.{IsStrictlyIncreasing};

/// Whether each number is greater than the one before.
fn is_rising(numbers: &[u64]) -> bool
    ensures { result ≡ true → IsStrictlyIncreasing numbers.now }
{
    for place in 1..numbers.len() {
        if numbers[place] <= numbers[place - 1] {
            return false;
        }
    }
    true
}

/// Puts numbers in order, each once, as `finish_changed` wants what is observed of them. Most stand so already.
pub fn arrange(numbers: &mut Vec<u64>)
    ensures rising { IsStrictlyIncreasing numbers.new.items }
    ensures same { (number : ℕ) → Contains numbers.new.items number ↔ Contains numbers.old.items number }
{
    if is_rising(numbers) {
        return;
    }
    numbers.sort_unstable();
    numbers.dedup();
}
