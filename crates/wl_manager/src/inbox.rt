//! What changed for an agent since it last asked.

use crate::ring::{Bell, Ring};
use std::alloc::Global;
use std::sync::Arc;
use wl_types::Memory;

/// The numbers of an agent's requests that changed since it last collected them. A manager adds them, and the agent
/// collects them without the manager's lock. Neither waits for the other.
#[derive(Drop)]
pub struct Inbox {
    changed: Ring,
    bell: Option<Bell>,
}

impl Inbox {
    pub fn new(alloc: Global, bell: Option<Bell>) -> Inbox {
        Inbox {
            changed: Ring::new(alloc),
            bell,
        }
    }

    /// The same inbox for a new request, with a place for each request that has it: so what a request's later changes
    /// add takes no memory.
    pub(crate) fn join(this: &Arc<Inbox>) -> Result<Arc<Inbox>, Memory> {
        let inbox = Arc::try_clone(this)?;
        inbox.changed.reserve(Arc::strong_count(&inbox))?;
        Ok(inbox)
    }

    /// Adds the number of a request that changed. Its phase is published by then, so that whoever collects the number
    /// finds the new phase. The first one since the last `collect` rings the bell.
    pub(crate) fn add(&self, number: u64) {
        if self.changed.add(number) {
            if let Some(bell) = &self.bell {
                bell.ring();
            }
        }
    }

    /// From here until the next `collect` no change rings the bell.
    pub(crate) fn silence(&self) {
        if self.bell.is_some() {
            self.changed.set_rung();
        }
    }

    /// Whether a number was added since the last `collect`.
    pub(crate) fn is_rung(&self) -> bool {
        self.changed.is_rung()
    }

    /// As the ring's. The bell may ring again before the numbers are read, so that one that is added meanwhile does.
    pub(crate) fn collect(&self, numbers: &mut Vec<u64>) -> bool {
        self.changed.take_rung();
        self.changed.collect(numbers)
    }
}
