//! What is read, as text.

use std::alloc::Global;
use wl_codec::{Body, CodecFault, Line, Message, Reading, read_line, read_message};
use wl_types::{Ask, Memory};

/// Adds what some bytes are as a message.
pub fn add_message(alloc: Global, came: &mut String, text: &[u8]) -> Result<(), Memory> {
    add_reading(came, &read_message(alloc, text)?)
}

/// Adds what they are as a line.
pub fn add_line(alloc: Global, came: &mut String, text: &[u8]) -> Result<(), Memory> {
    add_labelled(came, &read_line(alloc, text)?)
}

/// A message's id and what it asks, or the id, where it has one, and the name and rule of its fault.
pub fn add_reading(came: &mut String, reading: &Reading) -> Result<(), Memory> {
    match reading {
        Reading::Good(message) => add_good(came, message),
        Reading::Bad(id, fault) => add_wrong(came, *id, *fault),
    }
}

/// The same of a line, with its label before it.
pub fn add_labelled(came: &mut String, line: &Line) -> Result<(), Memory> {
    match line {
        Line::Good(label, message) => {
            came.push_str(label.as_str())?;
            came.push_str(": ")?;
            add_good(came, message)
        }
        Line::Bad(id, fault) => add_wrong(came, *id, *fault),
    }
}

fn add_good(came: &mut String, message: &Message) -> Result<(), Memory> {
    let id = message.id;
    match &message.body {
        Body::Enter { url, kind, bucket } => {
            let (url, bucket) = (url.as_str(), bucket.as_str());
            write!(came, "{id} open {url} {bucket} {kind:?}")?;
        }
        Body::Request(ask) => add_ask(came, id, ask)?,
        body => write!(came, "{id} {body:?}")?,
    }
    Ok(())
}

fn add_ask(came: &mut String, id: u64, ask: &Ask) -> Result<(), Memory> {
    write!(
        came,
        "{id} request {} {}",
        ask.name.as_str(),
        ask.mode.word()
    )?;
    add_flag(came, " available", ask.if_available)?;
    add_flag(came, " steal", ask.steal)?;
    add_signal(came, ask.signal)
}

fn add_flag(came: &mut String, word: &str, is_set: bool) -> Result<(), Memory> {
    if is_set {
        came.push_str(word)?;
    }
    Ok(())
}

fn add_signal(came: &mut String, signal: Option<u64>) -> Result<(), Memory> {
    if let Some(signal) = signal {
        write!(came, " signal {signal}")?;
    }
    Ok(())
}

fn add_wrong(came: &mut String, id: Option<u64>, fault: CodecFault) -> Result<(), Memory> {
    if let Some(id) = id {
        write!(came, "{id} ")?;
    }
    write!(came, "{}/{}", fault.name(), fault.rule())?;
    Ok(())
}
