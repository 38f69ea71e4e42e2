//! What C is given of a world.

ghost use Rattle.std.specs.Prelude.{◌≡◌, Some};
ghost use Rattle.std.specs.declared.option.Option.{Option};
ghost use Rattle.std.specs.Coded.{coded_option};
ghost use Rattle.wl_c.specs.Handles.{handed};
ghost use Rattle.wl_c.specs.contracts.world.World.{the_row};
ghost use Rattle.wl_c.specs.declared.world.World as code;

use crate::loose::Loose;
use crate::world::World;
use std::alloc::Global;
use std::boxed::Box;
use std::marker::Model;

/// The address of a world, which owns the world's box; or, where `world` is none, an address that owns nothing, as of a
/// variable of C's that was never set. Who has it ends the world, so letting it go frees nothing.
#[repr(C)]
#[derive(Drop)]
pub struct Handle {
    at: *mut u8,
    pub ghost world: { Option code.World } by { coded_option the_row.coded },
}

impl Model for Handle {
    ghost also_owns = { λ h. handed h.at h.world };
}

impl Handle {
    fn of_loose(loose: Loose<World, Global>) -> Handle
        ensures { result.world ≡ Some loose.value }
    {
        let Loose { at, alloc: _ } = loose;
        Handle { at: at as *mut u8 }
    }

    /// Hands a world out.
    pub fn of(world: Box<World>) -> Handle
        ensures { result.world ≡ Some world.value }
    {
        Handle::of_loose(Loose::of(world))
    }
}
