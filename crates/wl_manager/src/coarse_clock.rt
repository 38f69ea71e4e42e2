//! A clock that is set now and then.

use crossbeam_utils::CachePadded;
use std::alloc::Global;
use std::sync::Arc;
use std::sync::atomic::{AtomicU64, Ordering};
use wl_types::Memory;

/// A clock that its host sets now and then, to the milliseconds since a start of its choice. Managers read it when a
/// request is asked for and when it is granted, so that no call of theirs asks the system for the time.
#[derive(Drop)]
pub struct CoarseClock {
    // Apart from what others write.
    millis: Arc<CachePadded<AtomicU64>>,
}

impl CoarseClock {
    /// A clock at 0.
    pub fn new(alloc: Global) -> Result<CoarseClock, Memory> {
        Ok(CoarseClock {
            millis: Arc::new(alloc, CachePadded::new(AtomicU64::new(0)))?,
        })
    }

    /// The same clock once more. `Memory` comes only where the count of its owners is used up.
    pub fn share(&self) -> Result<CoarseClock, Memory> {
        Ok(CoarseClock {
            millis: Arc::try_clone(&self.millis)?,
        })
    }

    /// Sets it. A time before that of the clock, as of one of several hosts who is late, changes nothing.
    pub fn set(&self, now: u64) {
        // Hosts set it far more often than its time changes, and all of them read it.
        if self.now() < now {
            self.millis.fetch_max(now, Ordering::SeqCst);
        }
    }

    /// The latest time to which it was set.
    pub fn now(&self) -> u64 {
        self.millis.load(Ordering::SeqCst)
    }
}
