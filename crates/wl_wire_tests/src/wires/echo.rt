//! Who answers in the tests.

use std::alloc::{AllocError, Global};
use std::str;
use std::sync::atomic::{AtomicU64, Ordering};
use std::sync::{Arc, Wait};
use wl_types::Memory;
use wl_wire::{Answer, Ending, Speaker};

/// Answers a text by itself, has `news` to push after `mark`, and ends the connection at `leave`. It may be let go only
/// so that a test can give up.
#[derive(Drop)]
pub struct Echo {
    alloc: Global,
    is_marked: bool,
    ended: Arc<AtomicU64, Global>,
}

impl Echo {
    /// One that counts its end there.
    pub fn new(alloc: Global, ended: &Arc<AtomicU64, Global>) -> Result<Echo, AllocError> {
        Ok(Echo {
            alloc,
            is_marked: false,
            ended: Arc::try_clone(ended)?,
        })
    }
}

impl Speaker for Echo {
    // Nothing is said of what it answers.
    ghost answers = { λ old message text new. Unit {0} };

    ghost pushes = { λ old text new. Unit {0} };

    fn answer<R: Wait>(self, rt: &R, message: &[u8]) -> Result<(Echo, Answer), Memory> {
        let mut echo = self;
        let text = str::from_utf8(message).unwrap_or("bytes");
        if text == "leave" {
            return Ok((echo, Answer::End(Ending::Forbidden("left"))));
        }
        echo.is_marked |= text == "mark";
        match String::from_str(echo.alloc, text) {
            Ok(text) => Ok((echo, Answer::Text(text))),
            Err(_) => {
                echo.end(rt);
                Err(Memory)
            }
        }
    }

    fn push<R: Wait>(self, rt: &R) -> Result<(Echo, Option<String>), Memory> {
        let mut echo = self;
        if !echo.is_marked {
            return Ok((echo, None));
        }
        echo.is_marked = false;
        match String::from_str(echo.alloc, "push") {
            Ok(text) => Ok((echo, Some(text))),
            Err(_) => {
                echo.end(rt);
                Err(Memory)
            }
        }
    }

    fn end<R: Wait>(self, _rt: &R) {
        let Echo {
            alloc: _alloc,
            is_marked: _is_marked,
            ended,
        } = self;
        ended.fetch_add(1, Ordering::SeqCst);
    }
}
