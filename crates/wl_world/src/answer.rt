//! What a line is answered.

ghost use Rattle.std.specs.Prelude.{◌≡◌, IfOk, string_bytes};
ghost use Rattle.wl_codec.specs.Replies.{reply_text};
ghost use Rattle.wl_world.specs.Labels.{closes, plain};

use std::alloc::Global;
use wl_codec::{Notices, Outcome, WireReply, write_reply};
use wl_types::Memory;

/// What the line of an opened label is answered, and whether the label closed.
#[derive(Drop)]
pub(crate) struct Answer {
    pub text: String,
    pub closed: bool,
}

pub(crate) fn closes(outcome: &Outcome) -> bool
    ensures { result ≡ closes outcome.now }
{
    matches!(outcome, Outcome::Closed)
}

/// The text of a reply without notices.
pub(crate) fn plain_text(alloc: Global, id: Option<u64>, outcome: Outcome) -> Result<String, Memory>
    ensures { IfOk result (λ text. string_bytes text ≡ reply_text (plain id outcome)) }
{
    let reply = WireReply {
        id,
        notices: Notices::new(alloc),
        outcome,
    };
    write_reply(alloc, &reply)
}
