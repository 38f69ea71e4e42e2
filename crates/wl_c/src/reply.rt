//! What a call answers, as C has it.

ghost use Rattle.wl_c.specs.Handles.{IsReply, Says, SaysAudit};

use crate::fault::{Fault, code_of};
use crate::world::World;

/// The code of a call, and where its reply is.
#[derive(Clone, Copy)]
pub struct Reply {
    pub is_done: bool,
    pub code: i32,
    pub bytes: *const u8,
    pub length: usize,
}

/// The reply of the world's last call, whose outcome this is.
fn reply_of(world: &World, outcome: Result<(), Fault>) -> Reply
    ensures { IsReply outcome result world.now }
{
    Reply {
        is_done: outcome.is_ok(),
        code: code_of(outcome),
        bytes: world.reply.as_ptr(),
        length: world.reply.len(),
    }
}

/// Answers a line.
pub fn answer_line(world: &mut World, line: &[u8]) -> Reply
    ensures { Says world.old line.now result world.new }
{
    let outcome = world.answer(line);
    reply_of(world, outcome)
}

/// Audits the lines so far.
pub fn audit_lines(world: &mut World) -> Reply
    ensures { SaysAudit world.old result world.new }
{
    let outcome = world.audit();
    reply_of(world, outcome)
}
