//! The memory that reading needs.

use std::alloc::Global;
use wl_types::Memory;

/// Room in which messages are read. Whoever reads many keeps one, and lends it to each read.
///
/// It is empty until the first read, which allocates it, and grows to the longest message. What was read before bears
/// on no later read.
#[derive(Drop)]
pub struct Scratch {
    alloc: Global,
    // In a box, since it is large and its owner may be moved.
    room: Option<Box<json::Scratch>>,
}

impl Scratch {
    pub fn new(alloc: Global) -> Scratch {
        Scratch { alloc, room: None }
    }

    pub(crate) fn room(&mut self) -> Result<&mut json::Scratch, Memory> {
        if self.room.is_none() {
            self.room = Some(box_scratch(self.alloc)?);
        }
        match &mut self.room {
            Some(room) => Ok(room),
            None => Err(Memory),
        }
    }
}

/// Not inlined, since a call pays for the size of what stands on its stack.
#[cold]
#[inline(never)]
fn box_scratch(alloc: Global) -> Result<Box<json::Scratch>, Memory> {
    Ok(Box::new(alloc, json::Scratch::new(alloc))?)
}
