//! Looking at the file of tokens, while a server runs.

use crate::entry::rules_with;
use crate::token_file::{FileFault, TokenFile};
use log::{Log, info, warn};
use std::fs::Files;
use std::sync::{Condvar, CondvarTimeouts, Mutex, Wait};
use std::time::{Clock, Duration};
use wl_loops::Shared;

/// The seconds between two looks at the file.
const PERIOD: u64 = 5;

/// Whether a server has ended.
#[derive(Drop)]
pub struct Over {
    is_over: Mutex<bool>,
    ended: Condvar,
}

impl Over {
    /// The server goes on.
    pub fn new() -> Over {
        Over {
            is_over: Mutex::new(false),
            ended: Condvar::new(),
        }
    }

    /// The server has ended: whoever waits goes on.
    pub fn tell<R: Wait>(&self, rt: &R) {
        *self.is_over.lock(rt) = true;
        self.ended.notify_all();
    }

    /// Whether the server has ended. It doesn't wait for that.
    pub fn is_over<R: Wait>(&self, rt: &R) -> bool {
        *self.is_over.lock(rt)
    }

    /// Waits for so long, and answers whether the server has ended.
    pub fn wait<R: Wait + Clock>(&self, rt: &R, time: Duration) -> bool {
        let is_over = self.is_over.lock(rt);
        if *is_over {
            return true;
        }
        let (is_over, _) = self.ended.wait_timeout(rt, is_over, time);
        *is_over
    }
}

/// A file of tokens, and what else the rules are made of that are put in place once it has changed.
#[derive(Drop)]
pub struct WatchedTokens<'a> {
    pub file: TokenFile<'a>,
    pub origins: &'a [&'a str],
    pub has_fences: bool,
    /// Whether each handshake has to name, by its target, the one origin that it is for.
    pub is_sharded: bool,
}

impl WatchedTokens<'_> {
    /// Reads the tokens again if their file has changed, and answers whether it has.
    fn renew<R, H>(&mut self, rt: &R, shared: &Shared<H>) -> Result<bool, FileFault>
    where
        R: Wait + Files + AllocGlobal,
    {
        let Some(tokens) = self.file.read_changed(rt)? else {
            return Ok(false);
        };
        let (origins, alloc) = (self.origins, rt.alloc());
        let Ok(rules) = rules_with(
            alloc,
            origins,
            Some(tokens),
            self.has_fences,
            self.is_sharded,
        ) else {
            return Err(FileFault::Memory);
        };
        match shared.set_rules(rt, rules) {
            Ok(()) => Ok(true),
            Err(_) => Err(FileFault::Memory),
        }
    }
}

/// Reads the tokens again when their file has changed, until the server has ended. Where the file is wrong the old ones
/// stay. One that can't be read is tried again at each look, and what hinders that is told once.
pub fn watch<R, L, H>(
    rt: &R,
    log: &L,
    tokens: &mut WatchedTokens<'_>,
    shared: &Shared<H>,
    over: &Over,
)
where
    R: Wait + Clock + Files + AllocGlobal,
    L: Log,
{
    let mut hindrance: Option<FileFault> = None;
    for _ in rt.forever() {
        if over.wait(rt, Duration::from_secs(PERIOD)) {
            return;
        }
        match tokens.renew(rt, shared) {
            Ok(false) => {}
            Ok(true) => {
                hindrance = None;
                info!(log; "token file: read again");
            }
            Err(fault) => {
                if hindrance != Some(fault) {
                    warn!(log; "token file: {fault}, so the old tokens stay");
                }
                hindrance = fault.may_pass().then_some(fault);
                if hindrance.is_some() {
                    tokens.file.forget();
                }
            }
        }
    }
}
