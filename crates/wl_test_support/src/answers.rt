//! What calls of a core answer, as text.

use std::alloc::Global;
use wl_core::Reply;
use wl_types::{Change, LockInfo, Memory, Refusal, Snapshot};

/// A reply and the changes that came with it.
pub fn answer(alloc: Global, reply: &Reply, changes: &[Change]) -> Result<String, Memory> {
    let mut text = show(alloc, reply)?;
    for change in changes {
        let phase = format!(in alloc; ", {} {:?}", change.id, change.phase)?;
        text.push_str(phase.as_str())?;
    }
    Ok(text)
}

/// A reply, as Rust shows it; a snapshot's locks, and then what waits.
pub fn show(alloc: Global, reply: &Reply) -> Result<String, Memory> {
    match reply {
        Reply::Seen(snapshot) => show_snapshot(alloc, snapshot),
        Reply::Refused(refusal) => Ok(format!(in alloc; "{refusal}")?),
        _ => Ok(format!(in alloc; "{reply:?}")?),
    }
}

fn show_snapshot(alloc: Global, snapshot: &Snapshot) -> Result<String, Memory> {
    let mut text = String::new(alloc);
    text.push_str("held")?;
    list(alloc, &mut text, snapshot.held.as_slice())?;
    text.push_str(", waiting")?;
    list(alloc, &mut text, snapshot.pending.as_slice())?;
    Ok(text)
}

fn list(alloc: Global, text: &mut String, infos: &[LockInfo]) -> Result<(), Memory> {
    for info in infos {
        let name = info.name.as_str();
        let item = format!(in alloc; " {name}/{}/{}", info.mode.word(), info.client)?;
        text.push_str(item.as_str())?;
    }
    Ok(())
}

/// What a command would be refused.
pub fn may_be(alloc: Global, refused: Result<(), Refusal>) -> Result<String, Memory> {
    match refused {
        Ok(()) => Ok("yes".to_string(alloc)?),
        Err(refusal) => Ok(format!(in alloc; "{refusal}")?),
    }
}

/// The number of a request, where there is one.
pub fn show_number(alloc: Global, number: Option<u64>) -> Result<String, Memory> {
    match number {
        Some(number) => Ok(format!(in alloc; "{number}")?),
        None => Ok("none".to_string(alloc)?),
    }
}
