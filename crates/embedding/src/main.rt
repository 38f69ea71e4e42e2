//! An example of embedding: threads that share a lock manager, and a core that is driven by calls.
//!
//! docs/USING.md leads through it.
#![tactic(auto)]

mod cores;
mod fault;
mod threads;

use cores::hand_over;
use fault::Fault;
use std::alloc::Global;
use std::process::ExitCode;
use std::random::RandomSource;
use std::sync::Wait;
use std::thread::Threads;
use threads::share_printer;
use wl_types::{Ask, Memory, Mode, Text};

fn main(rt: HostRuntime) -> ExitCode {
    match run(&rt) {
        Ok(()) => ExitCode::SUCCESS,
        Err(fault) => {
            // Where standard error is closed too, the status alone tells.
            let _ = eprintln!(&rt; "embedding: {fault}");
            ExitCode::FAILURE
        }
    }
}

/// Both ways to embed, one after the other.
fn run<R>(rt: &R) -> Result<(), Fault>
where
    R: Threads + Wait + Sync + RandomSource + Print + AllocGlobal,
{
    let pages = share_printer(rt, rt.alloc())?;
    println!(rt; "2 agents on 2 threads took turns at the lock printer: {pages} pages")?;
    hand_over(rt)
}

/// A request for an exclusive lock of this name, without options.
fn exclusive(alloc: Global, name: &str) -> Result<Ask, Memory> {
    Ok(Ask {
        name: Text::of(alloc, name)?,
        mode: Mode::Exclusive,
        if_available: false,
        steal: false,
        signal: None,
    })
}
