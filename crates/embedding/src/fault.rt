//! Why the example ends early.

use std::io;
use thiserror::Error;
use wl_types::{Memory, Refusal};

#[derive(Debug, Drop, Error)]
pub enum Fault {
    #[error("out of memory")]
    Memory,
    #[error("refused: {0}")]
    Refused(Refusal),
    #[error("cannot print")]
    Print(#[from] io::Error),
}

impl From<Memory> for Fault {
    fn from(_refused: Memory) -> Fault {
        Fault::Memory
    }
}

impl From<Refusal> for Fault {
    fn from(refusal: Refusal) -> Fault {
        match refusal {
            Refusal::Memory => Fault::Memory,
            other => Fault::Refused(other),
        }
    }
}
