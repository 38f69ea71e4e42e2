//! A log whose lines wait for their writer, so that no loop waits for whoever reads them.

use crossbeam_channel::{Receiver, Sender, bounded};
use log::kv::Source;
use log::span::Spans;
use log::{Level, Log, Metadata, Record, log, warn};
use std::alloc::Global;
use std::fmt::Display;
use std::sync::atomic::{AtomicU64, Ordering};
use std::sync::{Arc, Wait};
use wl_types::Memory;

/// The lines that wait at most.
const MOST_LINES: usize = 1_024;

/// What a writer is told.
#[derive(Drop)]
enum Said {
    /// What a line says, and how urgent it is.
    Line(Level, String),
    /// That no line is to come.
    End,
}

/// A log that hands each line that another one wants to the thread of its `LogWriter`, and waits for nobody. A line
/// that finds no place, or no memory, is lost, and counted. Of a record its level and its text are kept.
#[derive(Drop)]
pub struct LogQueue<'a, R, L> {
    rt: &'a R,
    alloc: Global,
    log: &'a L,
    sender: Sender<Said>,
    lost: Arc<AtomicU64>,
}

/// What tells the other log the lines of a queue.
#[derive(Drop)]
pub struct LogWriter<'a, L> {
    log: &'a L,
    receiver: Receiver<Said>,
    lost: Arc<AtomicU64>,
}

/// An empty queue before this log, and its writer.
pub fn log_queue<'a, R, L>(
    rt: &'a R,
    alloc: Global,
    log: &'a L,
) -> Result<(LogQueue<'a, R, L>, LogWriter<'a, L>), Memory> {
    let (sender, receiver) = bounded(alloc, MOST_LINES)?;
    let lost = Arc::new(alloc, AtomicU64::new(0))?;
    let writer = LogWriter {
        log,
        receiver,
        lost: Arc::try_clone(&lost)?,
    };
    let queue = LogQueue {
        rt,
        alloc,
        log,
        sender,
        lost,
    };
    Ok((queue, writer))
}

impl<'a, R: Wait, L: Log> Log for LogQueue<'a, R, L> {
    fn enabled(&self, metadata: &Metadata<'_>) -> bool {
        self.log.enabled(metadata)
    }

    fn log<D: Display, K: Source, S: Spans>(&self, record: &Record<'_, D, K, S>) {
        let is_kept = match String::format(self.alloc, record.args()) {
            Ok(text) => {
                let level = record.level();
                self.sender
                    .try_send(self.rt, Said::Line(level, text))
                    .is_ok()
            }
            Err(_) => false,
        };
        if !is_kept {
            self.lost.fetch_add(1, Ordering::SeqCst);
        }
    }

    fn flush(&self) {}

    fn target(&self) -> &str {
        self.log.target()
    }
}

impl<'a, R: Wait, L> LogQueue<'a, R, L> {
    /// Has the writer end behind the lines that wait. It waits for a place among these.
    pub fn end(&self) {
        let _ = self.sender.send(self.rt, Said::End);
    }
}

impl<'a, L: Log> LogWriter<'a, L> {
    /// Tells the lines one after another, until it is to end.
    pub fn write<R: Wait>(&self, rt: &R) {
        for _ in rt.forever() {
            let Ok(Said::Line(level, text)) = self.receiver.recv(rt) else {
                break;
            };
            log!(self.log; level, "{text}");
            self.tell_lost();
        }
        self.tell_lost();
    }

    /// Tells how many lines were lost since it was last told.
    fn tell_lost(&self) {
        let lost = self.lost.swap(0, Ordering::SeqCst);
        if lost > 0 {
            warn!(self.log; "lost {lost} lines of this log, which nobody read in time");
        }
    }
}
