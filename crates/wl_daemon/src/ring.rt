//! Which connections of a loop have changes.

use std::alloc::Global;
use std::sync::{Arc, Mutex};
use wl_loops::Ring;
use wl_manager::Alarm;
use wl_types::Memory;

/// The ring of a loop, by the keys of its connections.
#[derive(Drop)]
pub struct LoopRing {
    places: Arc<wl_manager::Ring>,
    // Lent to `collect`, which the loop alone calls, so that it makes no list each time.
    collected: Mutex<Vec<u64>>,
}

impl LoopRing {
    /// Of a loop none of whose connections has changes. The first that has raises the alarm of all loops.
    pub fn new(alloc: Global, alarm: &Alarm) -> Result<LoopRing, Memory> {
        let ring = wl_manager::Ring::with_alarm(alloc, alarm.share()?);
        Ok(LoopRing {
            places: Arc::new(alloc, ring)?,
            collected: Mutex::new(Vec::new(alloc)),
        })
    }

    /// What the bells of this loop's agents add to.
    pub fn places(&self) -> &Arc<wl_manager::Ring> {
        &self.places
    }
}

impl Ring for LoopRing {
    fn take_rung(&self) -> bool {
        self.places.take_rung()
    }

    fn is_rung(&self) -> bool {
        self.places.is_rung()
    }

    fn collect(&self, keys: &mut Vec<usize>) -> bool {
        keys.clear();
        let Some(mut collected) = self.collected.try_lock() else {
            return false;
        };
        let mut are_all = self.places.collect(&mut collected);
        for place in collected.iter() {
            are_all &= keys.push(*place as usize).is_ok();
        }
        are_all
    }
}
