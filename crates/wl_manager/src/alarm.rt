//! Whether one of several rings was rung.

use crossbeam_utils::CachePadded;
use std::alloc::Global;
use std::sync::Arc;
use std::sync::atomic::{AtomicBool, Ordering};
use wl_types::Memory;

/// A word that several rings share. A ring raises it behind the first number that is added to it, so that whoever wakes
/// their owners looks at the rings only where it was raised. Whoever takes it and then looks finds each ring that
/// raised it before rung, unless its owner took that meanwhile.
#[derive(Drop)]
pub struct Alarm {
    // Apart from what others write, since it is read far more often than raised.
    raised: Arc<CachePadded<AtomicBool>>,
}

impl Alarm {
    /// An alarm that nothing raised.
    pub fn new(alloc: Global) -> Result<Alarm, Memory> {
        let raised = CachePadded::new(AtomicBool::new(false));
        Ok(Alarm {
            raised: Arc::new(alloc, raised)?,
        })
    }

    /// The same alarm once more. `Memory` comes only where the count of its owners is used up.
    pub fn share(&self) -> Result<Alarm, Memory> {
        Ok(Alarm {
            raised: Arc::try_clone(&self.raised)?,
        })
    }

    fn is_raised(&self) -> bool {
        self.raised.load(Ordering::SeqCst)
    }

    /// Where it is raised already, whoever takes it looks behind that, and so behind this call.
    pub(crate) fn raise(&self) {
        if !self.is_raised() {
            self.raised.store(true, Ordering::SeqCst);
        }
    }

    /// Whether it was raised since this was last asked. Of several who ask one alone is told so.
    pub fn take(&self) -> bool {
        self.is_raised() && self.raised.swap(false, Ordering::SeqCst)
    }
}
