//! Which locks are held and asked for, as JSON. An object's members stand in the order of their names.

use json::{Writer, is_number};
use std::alloc::Global;
use wl_manager::LockRow;
use wl_service::{ManagerLocks, ServiceLocks};
use wl_types::{Memory, client_text};

/// The text of these locks.
pub(crate) fn locks_text(alloc: Global, locks: &ServiceLocks) -> Result<Vec<u8>, Memory> {
    let mut out = Writer::new(Vec::new(alloc));
    out.begin_object()?;
    out.key("left_out")?;
    out.begin_object()?;
    out.key("managers")?;
    out.u64(locks.left_out_managers)?;
    out.key("rows")?;
    out.u64(locks.left_out_rows)?;
    out.end_object()?;
    out.key("managers")?;
    out.begin_array()?;
    for manager in &locks.managers {
        put_manager(alloc, &mut out, manager)?;
    }
    out.end_array()?;
    out.end_object()?;
    Ok(out.into_inner())
}

fn put_manager(alloc: Global, out: &mut Writer, manager: &ManagerLocks) -> Result<(), Memory> {
    let origin = manager.key.origin.text(alloc)?;
    out.begin_object()?;
    out.key("bucket")?;
    out.string(manager.key.bucket.as_str())?;
    out.key("held")?;
    put_rows(alloc, out, manager.locks.held.as_slice())?;
    out.key("left_out")?;
    out.u64(manager.locks.left_out)?;
    out.key("origin")?;
    out.string(origin.as_str())?;
    out.key("pending")?;
    put_rows(alloc, out, manager.locks.pending.as_slice())?;
    Ok(out.end_object()?)
}

fn put_rows(alloc: Global, out: &mut Writer, rows: &[LockRow]) -> Result<(), Memory> {
    out.begin_array()?;
    for row in rows {
        put_row(alloc, out, row)?;
    }
    Ok(out.end_array()?)
}

fn put_row(alloc: Global, out: &mut Writer, row: &LockRow) -> Result<(), Memory> {
    let client = client_text(alloc, row.client)?;
    out.begin_object()?;
    out.key("client")?;
    out.string(client.as_str())?;
    out.key("mode")?;
    out.string(row.mode.word())?;
    out.key("name")?;
    out.string(row.name.as_str())?;
    out.key("request")?;
    out.u64(row.request)?;
    out.key("since_asked")?;
    put_seconds(alloc, out, row.since_asked)?;
    if let Some(since_granted) = row.since_granted {
        out.key("since_granted")?;
        put_seconds(alloc, out, since_granted)?;
    }
    Ok(out.end_object()?)
}

/// Appends so many milliseconds as seconds with three decimals.
fn put_seconds(alloc: Global, out: &mut Writer, millis: u64) -> Result<(), Memory> {
    let text = format!(in alloc; "{}.{:03}", millis / 1_000, millis % 1_000)?;
    // It always is one; the test is what shows it to the writer.
    if is_number(text.as_str()) {
        out.number(text.as_str())?;
    } else {
        out.u64(millis / 1_000)?;
    }
    Ok(())
}
