//! What an event loop has for its connections.

use crate::counts::Counts;
use crate::ring::LoopRing;
use crossbeam_utils::CachePadded;
use std::alloc::Global;
use std::sync::Mutex;
use wl_manager::Alarm;
use wl_server::Scratch;
use wl_types::Memory;

/// What the connections of one event loop share.
#[derive(Drop)]
pub struct LoopState {
    /// Which of them have changes.
    pub ring: LoopRing,
    /// The room in which their messages are read, one after another. Only the loop's own thread locks it, for one
    /// message at a time, and what answers that message doesn't: so nobody ever waits for it. It has a lock because the
    /// threads of all loops share their states.
    pub scratch: Mutex<Scratch>,
    /// What is counted of them, apart from what other threads write to.
    pub counts: CachePadded<Counts>,
}

impl LoopState {
    /// Of a loop that has no connections yet. The alarm is that of all loops.
    pub fn new(alloc: Global, alarm: &Alarm) -> Result<LoopState, Memory> {
        Ok(LoopState {
            ring: LoopRing::new(alloc, alarm)?,
            scratch: Mutex::new(Scratch::new(alloc)),
            counts: CachePadded::new(Counts::new(alloc)?),
        })
    }
}
