//! What C calls.

ghost use Rattle.std.specs.Prelude.{◌≤◌, IfOk};
ghost use Rattle.std.specs.Ptr.{if_non_null};
ghost use denote.RawPtr.{Testable};
ghost use types.Logic.{sem};
ghost use Rattle.wl_c.specs.Handles.{Asking, Auditing, IsNew, after_answer, after_audit, handle, may_ask, may_audit};
ghost use Rattle.wl_c.specs.Handles.{was_answered, was_audited};
ghost use Rattle.wl_c.specs.inner.Handles.{has_asked, has_audit};
ghost use Rattle.wl_c.specs.Worlds.{IsOpening};
ghost use Rattle.wl_c.specs.declared.world.World as code;

use crate::fault::{Fault, code_of};
use crate::handle::Handle;
use crate::pointers::{can_answer, can_audit, can_end, code_of_line, code_of_null};
use crate::reply::{answer_line, audit_lines};
use crate::seed::Seed;
use crate::world::World;
use std::alloc::Global;
use std::boxed::Box;
use wl_types::Memory;

/// A world in a box.
fn box_world(alloc: Global, seed: Seed, keeps_books: bool) -> Result<Box<World>, Memory>
    ensures { IfOk result (λ b. IsOpening keeps_books b.value.live) }
{
    let world = World::new(alloc, seed, keeps_books)?;
    match Box::new(alloc, world) {
        Ok(world) => Ok(world),
        Err(_) => Err(Memory),
    }
}

/// Makes a world in which nobody has opened, and puts its handle at `*out`. 0, or `Memory`'s number.
///
/// By its type a handle is the caller's alone. What was at `*out` is forgotten, and not ended.
#[unsafe(no_mangle)]
pub extern "C" fn weblocks_new(alloc: Global, seed: &Seed, keep_books: i32, out: &mut Handle) -> i32
    ensures { IsNew keep_books out.old.world out.new.world result }
{
    match box_world(alloc, *seed, keep_books != 0) {
        Ok(world) => {
            *out = Handle::of(world);
            0
        }
        Err(Memory) => code_of(Err(Fault::Memory)),
    }
}

/// Answers a line where the pointers lead.
unsafe fn answer_at(
    world: *mut World,
    line: *const u8,
    length: usize,
    reply: *mut *const u8,
    reply_length: *mut usize,
) -> i32
    ghost g: { Asking }
    requires short { length ≤ 65536 }
    requires* memory { sem 𝓛 (has_asked world line length reply reply_length g) }
    ensures* memory { sem 𝓛 (was_answered world line length reply reply_length g result) }
{
    let answer = answer_line(&mut *world, std::slice::from_raw_parts(line, length));
    if answer.is_done {
        *reply = answer.bytes;
        *reply_length = answer.length;
    }
    answer.code
}

/// Answers a line, which is given without its LF: its reply and the world after it are those of the definitions.
#[unsafe(no_mangle)]
pub unsafe extern "C" fn weblocks_answer(
    world: *mut u8,
    line: *const u8,
    length: usize,
    reply: *mut *const u8,
    reply_length: *mut usize,
) -> i32
    ghost g: { Asking }
    requires testable { Testable world × Testable line × Testable reply × Testable reply_length }
    requires* memory { sem 𝓛 (may_ask world line length reply reply_length g) }
    ensures* memory { sem 𝓛 (after_answer world line length reply reply_length g result) }
{
    if can_answer(world, line, length, reply, reply_length) {
        return answer_at(world as *mut World, line, length, reply, reply_length);
    }
    code_of_line(length)
}

/// Audits where the pointers lead.
unsafe fn audit_at(world: *mut World, reply: *mut *const u8, reply_length: *mut usize) -> i32
    ghost g: { Auditing }
    requires* { sem 𝓛 (has_audit world reply reply_length g) }
    ensures* { sem 𝓛 (was_audited world reply reply_length g result) }
{
    let audit = audit_lines(&mut *world);
    if audit.is_done {
        *reply = audit.bytes;
        *reply_length = audit.length;
    }
    audit.code
}

/// Says for each manager whether its journal is legal, as the audit of a script of the lines so far.
#[unsafe(no_mangle)]
pub unsafe extern "C" fn weblocks_audit(
    world: *mut u8,
    reply: *mut *const u8,
    reply_length: *mut usize,
) -> i32
    ghost g: { Auditing }
    requires testable { Testable world × Testable reply × Testable reply_length }
    requires* memory { sem 𝓛 (may_audit world reply reply_length g) }
    ensures* memory { sem 𝓛 (after_audit world reply reply_length g result) }
{
    if can_audit(world, reply, reply_length) {
        return audit_at(world as *mut World, reply, reply_length);
    }
    code_of_null()
}

/// Drops a world.
fn drop_world(_world: Box<World>) {}

/// Takes a handle back, and drops its world.
unsafe fn end(alloc: Global, world: *mut World)
    ghost w: { code.World }
    requires* { sem 𝓛 (handle alloc world w) }
{
    drop_world(Box::from_raw(alloc, world))
}

/// Ends a world. Null is none.
#[unsafe(no_mangle)]
pub unsafe extern "C" fn weblocks_free(alloc: Global, world: *mut u8)
    ghost w: { code.World }
    requires testable { Testable world }
    requires* memory { sem 𝓛 (if_non_null world (handle alloc world w)) }
{
    if can_end(world) {
        return end(alloc, world as *mut World);
    }
}
