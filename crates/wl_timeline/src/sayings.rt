//! What a reply says.

use serde_json::Value;
use std::alloc::Global;
use wl_types::Memory;

/// An error that a line was answered by.
#[derive(Drop)]
pub(crate) struct Fault {
    pub line: u64,
    pub name: String,
    pub rule: String,
}

/// What a reply says of its line, as far as a picture shows it.
#[derive(Drop)]
pub(crate) struct Said {
    pub is_ok: bool,
    /// The number of the agent that opened.
    pub client: Option<u64>,
    /// The requests that the agent was told of, and whether of a grant.
    pub notices: Vec<(u64, bool)>,
    pub fault: Option<Fault>,
}

impl Said {
    /// Reads the reply to a line. A reply is JSON, so that what fails is memory.
    pub(crate) fn of(alloc: Global, line: u64, reply: &str) -> Result<Said, Memory> {
        let Ok(value) = Value::from_str(alloc, reply) else {
            return Err(Memory);
        };
        let ok = value.get("ok");
        Ok(Said {
            is_ok: ok.is_some(),
            client: ok.and_then(|ok| ok.get("client")).and_then(client_in),
            notices: notices_in(alloc, &value)?,
            fault: fault_in(alloc, line, &value)?,
        })
    }
}

/// The number in a client id, as `client-1`; none where it is null.
fn client_in(value: &Value) -> Option<u64> {
    value.as_str()?.strip_prefix("client-")?.parse::<u64>().ok()
}

fn notices_in(alloc: Global, value: &Value) -> Result<Vec<(u64, bool)>, Memory> {
    let mut notices = Vec::new(alloc);
    if let Some(all) = value.get("notices").and_then(Value::as_array) {
        for notice in all {
            if let Some(request) = notice.get("request").and_then(Value::as_u64) {
                let is_grant = notice.get("phase").and_then(Value::as_str) == Some("granted");
                notices.push((request, is_grant))?;
            }
        }
    }
    Ok(notices)
}

fn fault_in(alloc: Global, line: u64, value: &Value) -> Result<Option<Fault>, Memory> {
    let Some(error) = value.get("error") else {
        return Ok(None);
    };
    Ok(Some(Fault {
        line,
        name: text_in(alloc, error, "name")?,
        rule: text_in(alloc, error, "rule")?,
    }))
}

fn text_in(alloc: Global, error: &Value, member: &str) -> Result<String, Memory> {
    let text = error.get(member).and_then(Value::as_str).unwrap_or("");
    Ok(String::from_str(alloc, text)?)
}
