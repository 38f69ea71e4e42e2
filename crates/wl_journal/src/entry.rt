//! What a journal keeps of a command.

use wl_core::{Command, Reply};

/// A command and its reply. Those of a book were accepted, and none is a query; an audit takes any.
#[derive(Debug, Drop)]
pub struct Entry {
    pub command: Command,
    pub reply: Reply,
}
