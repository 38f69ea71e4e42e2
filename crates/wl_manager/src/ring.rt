//! Lists of what changed, which are added to without memory and without waiting.

use crate::alarm::Alarm;
use std::alloc::Global;
use std::hint::spin_loop;
use std::mem;
use std::sync::atomic::{AtomicBool, Ordering};
use std::sync::{Arc, Mutex, Wait};
use wl_types::Memory;

/// How often a list that another thread uses is tried. It is used for a few instructions.
const TRIES: u32 = 64;

/// The numbers of what changed until somebody collects them: of an agent's requests, or of the agents of a loop.
/// Whoever adds one waits for nobody and takes no memory: its place was reserved before. A number that finds no place
/// is missed, and then anything may have changed.
#[derive(Drop)]
pub struct Ring {
    changed: Mutex<Vec<u64>>,
    missed: AtomicBool,
    // A number was added since this was last taken.
    rung: AtomicBool,
    alarm: Option<Alarm>,
}

impl Ring {
    /// A ring to which nothing was added.
    pub fn new(alloc: Global) -> Ring {
        Ring::with(alloc, None)
    }

    /// A ring that raises this alarm with the first number that is added since `take_rung` was last called.
    pub fn with_alarm(alloc: Global, alarm: Alarm) -> Ring {
        Ring::with(alloc, Some(alarm))
    }

    fn with(alloc: Global, alarm: Option<Alarm>) -> Ring {
        Ring {
            changed: Mutex::new(Vec::new(alloc)),
            missed: AtomicBool::new(false),
            rung: AtomicBool::new(false),
            alarm,
        }
    }

    /// Makes room for this many numbers in all. Where another thread uses the list, that is left to a later call.
    pub fn reserve(&self, places: usize) -> Result<(), Memory> {
        if let Some(mut changed) = self.changed.try_lock() {
            let more = places.saturating_sub(changed.len());
            changed.reserve(more)?;
        }
        Ok(())
    }

    /// Adds a number, and answers whether nothing was added since `take_rung` was last called.
    pub fn add(&self, number: u64) -> bool {
        if !self.put(number) {
            self.missed.store(true, Ordering::SeqCst);
        }
        let is_first = !self.rung.swap(true, Ordering::SeqCst);
        if is_first {
            if let Some(alarm) = &self.alarm {
                alarm.raise();
            }
        }
        is_first
    }

    /// Puts a number with those that changed, and answers whether there was a place for it.
    fn put(&self, number: u64) -> bool {
        for _ in 0..TRIES {
            if let Some(mut changed) = self.changed.try_lock() {
                if changed.len() < changed.capacity() {
                    changed.push_reserved(number);
                    return true;
                }
                return false;
            }
            spin_loop();
        }
        false
    }

    /// As if something was added: until `take_rung` is next called no number is the first one.
    pub(crate) fn set_rung(&self) {
        self.rung.store(true, Ordering::SeqCst);
    }

    /// Whether something was added since `take_rung` was last called.
    pub fn is_rung(&self) -> bool {
        self.rung.load(Ordering::SeqCst)
    }

    /// The same, and from now on nothing was.
    pub fn take_rung(&self) -> bool {
        self.is_rung() && self.rung.swap(false, Ordering::SeqCst)
    }

    /// Puts the numbers that were added in place of those that the list has, in no order and some more than once, and
    /// answers whether these are all. They are copied, so that the places stay reserved.
    pub fn collect(&self, numbers: &mut Vec<u64>) -> bool {
        numbers.clear();
        let Some(mut changed) = self.changed.try_lock() else {
            return false;
        };
        let is_copied = numbers.extend_from_slice(&changed).is_ok();
        changed.clear();
        drop(changed);
        !self.missed.swap(false, Ordering::SeqCst) && is_copied
    }
}

/// A place in the ring of a loop.
#[derive(Drop)]
struct Target {
    ring: Arc<Ring>,
    place: u64,
}

impl Target {
    /// This place of the ring, which has room for one place of each target.
    fn new(ring: &Arc<Ring>, place: u64) -> Result<Target, Memory> {
        let ring = Arc::try_clone(ring)?;
        ring.reserve(Arc::strong_count(&ring))?;
        Ok(Target { ring, place })
    }
}

/// An agent's place in the ring of a loop: rung once when the agent has changed requests, until it collects them.
#[derive(Drop)]
pub struct Bell {
    target: Arc<Mutex<Target>>,
}

impl Bell {
    /// A bell that adds this place to the ring, which has room for one place of each bell.
    pub fn new(alloc: Global, ring: &Arc<Ring>, place: u64) -> Result<Bell, Memory> {
        let target = Target::new(ring, place)?;
        Ok(Bell {
            target: Arc::new(alloc, Mutex::new(target))?,
        })
    }

    /// The same bell once more, for whoever is to move it.
    pub fn share(&self) -> Result<Bell, Memory> {
        Ok(Bell {
            target: Arc::try_clone(&self.target)?,
        })
    }

    /// From now on the bell adds this place to this ring. What rings meanwhile may go to either or to neither, so
    /// whoever moves a bell looks afterwards whether the agent has changed requests. Where memory is refused it stays.
    pub fn move_to<R: Wait>(&self, rt: &R, ring: &Arc<Ring>, place: u64) -> Result<(), Memory> {
        let target = Target::new(ring, place)?;
        let left = mem::replace(&mut *self.target.lock(rt), target);
        drop(left);
        Ok(())
    }

    /// Adds its place to its ring. One that is being moved meanwhile is passed over.
    pub(crate) fn ring(&self) {
        for _ in 0..TRIES {
            if let Some(target) = self.target.try_lock() {
                target.ring.add(target.place);
                return;
            }
            spin_loop();
        }
    }
}
