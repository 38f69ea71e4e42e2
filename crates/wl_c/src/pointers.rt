//! What a call finds of its pointers before it follows them.

ghost use Rattle.std.specs.Prelude.{◌≡◌, ◌≤◌, ◌<◌, ◌⊎◌, ◌∷◌, [], true, false};
ghost use denote.RawPtr.{InBlock, Testable, null_ptr};
ghost use Rattle.wl_c.specs.Codes.{fault_code};
ghost use Rattle.wl_c.specs.Handles.{HasNull};
ghost use Rattle.wl_c.specs.declared.fault.Fault.TheVariants.{Null};
ghost use Rattle.wl_c.specs.inner.Handles.{IsLineFault};

use crate::fault::{Fault, code_of};
use std::ptr::NonNull;
use wl_codec::LONGEST_LINE;

/// Whether a pointer leads anywhere.
fn leads<T>(pointer: *mut T) -> bool
    requires { Testable pointer }
    ensures in_block { result ≡ true → InBlock pointer }
    ensures null { result ≡ false → pointer ≡ null_ptr }
{
    NonNull::new(pointer).is_some()
}

/// Whether there is a world to end.
pub fn can_end(world: *mut u8) -> bool
    requires { Testable world }
    ensures { result ≡ true → InBlock world }
{
    leads(world)
}

/// Whether a call with a line can be made.
pub fn can_answer(
    world: *mut u8,
    line: *const u8,
    length: usize,
    reply: *mut *const u8,
    reply_length: *mut usize,
) -> bool
    requires { Testable world × Testable line × Testable reply × Testable reply_length }
    ensures { (result ≡ true → InBlock world × InBlock line × InBlock reply × InBlock reply_length × (length ≤ 65536))
        × (result ≡ false → HasNull (world ∷ line ∷ reply ∷ reply_length ∷ []) ⊎ (65536 < length)) }
{
    leads(world)
        && leads(line.cast_mut())
        && leads(reply)
        && leads(reply_length)
        && length <= LONGEST_LINE
}

/// Why a call with a line can't be made.
pub fn code_of_line(length: usize) -> i32
    ensures { IsLineFault length result }
{
    if length > LONGEST_LINE {
        return code_of(Err(Fault::TooLong));
    }
    code_of(Err(Fault::Null))
}

/// Whether a call for an audit can be made.
pub fn can_audit(world: *mut u8, reply: *mut *const u8, reply_length: *mut usize) -> bool
    requires { Testable world × Testable reply × Testable reply_length }
    ensures { (result ≡ true → InBlock world × InBlock reply × InBlock reply_length)
        × (result ≡ false → HasNull (world ∷ reply ∷ reply_length ∷ [])) }
{
    leads(world) && leads(reply) && leads(reply_length)
}

/// Why a call for an audit can't be made.
pub fn code_of_null() -> i32
    ensures { result ≡ fault_code Null }
{
    code_of(Err(Fault::Null))
}
