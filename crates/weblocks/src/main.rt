//! The program: a lock service with the behaviour of the Web Locks API, at the command line.
//!
//! Its status is 0; or 1, with one line on standard error, where a job ends early; or 2 where the words on the
//! command line are wrong.
#![tactic(auto)]

mod daemon;
mod listening;
mod network;
mod standard;

use daemon::daemon;
use network::{NetFault, client, serve};
use standard::hold_numbers;
use std::alloc::{AllocError, Global};
use std::fs::{File, Files};
use std::io::Write;
use std::net::{Net, TcpListener, TcpStream};
use std::process::ExitCode;
use std::random::RandomSource;
use std::sync::Wait;
use std::thread::Threads;
use std::time::Clock;
use std::{env, fmt, io};
use wl_cli::{Job, UsageFault, job_of};
use wl_script::{Reader, ScriptFault, Writer};

fn main(rt: HostRuntime) -> ExitCode {
    match env::args(&rt) {
        Ok(words) => match words.collect::<Vec<String>>(rt.alloc()) {
            Ok(words) => work(&rt, &words),
            Err(_) => fail(&rt, "out of memory"),
        },
        Err(error) if error.kind() == io::ErrorKind::OutOfMemory => fail(&rt, "out of memory"),
        Err(_) => {
            // Where standard error is closed, nothing can be told there.
            let _ = eprintln!(&rt; "error: an argument is no UTF-8 text");
            ExitCode::from(2)
        }
    }
}

/// Does the job that the words ask for.
fn work<R>(rt: &R, words: &[String]) -> ExitCode
where
    R: Net<Listener = TcpListener, Stream = TcpStream> + Threads + Wait + Sync + RandomSource,
    R: io::Input + Print + Eprint + Clock + Files<File = File, Dir: Send> + AllocGlobal,
{
    let Ok(texts) = texts_of(rt.alloc(), words) else {
        return fail(rt, "out of memory");
    };
    match job_of(rt.alloc(), &texts) {
        Ok(Job::Run) => run(rt),
        Ok(Job::Audit) => audit(rt),
        Ok(Job::Timeline) => timeline(rt),
        Ok(Job::Serve { port, clients }) => finish(rt, serve(rt, port, u64::from(clients))),
        Ok(Job::Client { port }) => finish(rt, client(rt, port)),
        Ok(Job::Daemon(options)) => {
            let numbers = hold_numbers(rt);
            let code = daemon(rt, &options);
            drop(numbers);
            code
        }
        Err(UsageFault::Usage(error)) => answer_usage(rt, &error),
        Err(UsageFault::Memory) => fail(rt, "out of memory"),
    }
}

/// The status of a job on the network, and its fault's line.
fn finish<R: Eprint>(rt: &R, ended: Result<(), NetFault>) -> ExitCode {
    match ended {
        Ok(()) => ExitCode::SUCCESS,
        Err(fault) => fail(rt, fault),
    }
}

fn texts_of(alloc: Global, words: &[String]) -> Result<Vec<&str>, AllocError> {
    words.iter().map(|word| word.as_str()).collect(alloc)
}

/// Answers the script on standard input.
fn run<R: io::Input + Print + Eprint + AllocGlobal + RandomSource>(rt: &R) -> ExitCode {
    let mut reader = Reader::new(rt.reader());
    let mut writer = Writer::new(io::writer(rt));
    let ended = wl_script::run(rt, &mut reader, &mut writer);
    end(rt, writer, ended)
}

/// Audits the script on standard input.
fn audit<R: io::Input + Print + Eprint + AllocGlobal + RandomSource>(rt: &R) -> ExitCode {
    let mut reader = Reader::new(rt.reader());
    let mut writer = Writer::new(io::writer(rt));
    let ended = wl_script::audit(rt, &mut reader, &mut writer);
    end(rt, writer, ended)
}

/// Draws the script on standard input.
fn timeline<R: io::Input + Print + Eprint + AllocGlobal + RandomSource>(rt: &R) -> ExitCode {
    let mut reader = Reader::new(rt.reader());
    let mut writer = Writer::new(io::writer(rt));
    let ended = wl_timeline::timeline(rt, &mut reader, &mut writer);
    end(rt, writer, ended)
}

/// The last flush, and the status.
fn end<R: Eprint, W: Write + Drop>(
    rt: &R,
    writer: Writer<W>,
    ended: Result<u64, ScriptFault>,
) -> ExitCode {
    match ended {
        Ok(written) => match writer.into_inner().flush() {
            Ok(()) => ExitCode::SUCCESS,
            Err(_) => fail(rt, ScriptFault::Write(written)),
        },
        Err(fault) => fail(rt, fault),
    }
}

/// Help and the version go to standard output; a mistake in the words to standard error.
fn answer_usage<R: Print + Eprint>(rt: &R, error: &clap::Error) -> ExitCode {
    match error.print(rt) {
        Ok(()) => {}
        Err(_) if error.use_stderr() => {}
        Err(_) => return fail(rt, ScriptFault::Write(0)),
    }
    ExitCode::from(error.exit_code() as u8)
}

fn fail<R: Eprint, D: fmt::Display + Drop>(rt: &R, why: D) -> ExitCode {
    // Where standard error is closed too, the status alone tells.
    let _ = eprintln!(rt; "weblocks: {why}");
    ExitCode::FAILURE
}
