//! Flags by which one thread tells another how far it is.

use std::sync::atomic::{AtomicBool, Ordering};
use std::thread;

/// How often a flag is looked at. The others run in between, so that this is many seconds.
const TURNS: u64 = 100_000_000;

/// Whether the flag comes up in time.
pub fn comes(flag: &AtomicBool) -> bool {
    for _ in 0..TURNS {
        if flag.load(Ordering::SeqCst) {
            return true;
        }
        thread::yield_now();
    }
    false
}
