//! What a reply or a push says, for whoever counts.

use memchr::{memchr, memchr_iter, memmem};

/// The rules that a reply may name: those of refusals, and those of faults of messages.
pub const RULES: [&str; 30] = [
    "active",
    "agent",
    "agents",
    "bucket",
    "id",
    "ifAvailable",
    "inactive",
    "json",
    "kind",
    "memory",
    "mode",
    "name",
    "name-length",
    "numbers",
    "op",
    "opaque-origin",
    "options",
    "reason",
    "request",
    "requests",
    "reserved-name",
    "session",
    "signal",
    "signal-aborted",
    "signal-combined",
    "signals",
    "steal",
    "steal-if-available",
    "steal-shared",
    "url",
];

/// How the reply of an error begins.
const ERROR: &[u8] = b"{\"error\":{";

/// What stands before its rule, which is its object's last member.
const RULE: &[u8] = b"\"rule\":\"";

/// How a notice of a grant begins. No other notice does, and no text within one: there a quotation mark is escaped.
const GRANTED: &[u8] = b"{\"phase\":\"granted\"";

/// The rule that a text names, where it is the reply of an error.
fn named_rule(text: &str) -> Option<&[u8]> {
    let bytes = text.as_bytes();
    if !bytes.starts_with(ERROR) {
        return None;
    }
    let start = memmem::find(bytes, RULE)?;
    let (_, behind) = bytes.split_at_checked(start)?;
    let (_, rule) = behind.split_at_checked(RULE.len())?;
    let (rule, _) = rule.split_at_checked(memchr(b'"', rule)?)?;
    Some(rule)
}

/// The place of the rule among `RULES` that a text names, where it is the reply of an error.
pub fn rule_in(text: &str) -> Option<usize> {
    let rule = named_rule(text)?;
    RULES.iter().position(|known| known.as_bytes() == rule)
}

/// The notices of a reply or a push, which are its first list.
fn notices_in(text: &str) -> Option<&[u8]> {
    let bytes = text.as_bytes();
    let (_, list) = bytes.split_at_checked(memchr(b'[', bytes)?)?;
    let (notices, _) = list.split_at_checked(memchr(b']', list)?)?;
    Some(notices)
}

/// Whether a notice that begins at this place tells a grant.
fn is_grant(notices: &[u8], start: usize) -> bool {
    match notices.split_at_checked(start) {
        Some((_, notice)) => notice.starts_with(GRANTED),
        None => false,
    }
}

/// How many grants a reply or a push tells.
pub fn grants_in(text: &str) -> u64 {
    let Some(notices) = notices_in(text) else {
        return 0;
    };
    memchr_iter(b'{', notices)
        .filter(|start| is_grant(notices, *start))
        .count() as u64
}
