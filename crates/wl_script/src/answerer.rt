//! What answers one line of a script.

ghost use Rattle.std.specs.Prelude.{◌≡◌, IfOk, OnOk, string_bytes};
ghost use Rattle.wl_codec.specs.Reading.{line_reading};
ghost use Rattle.wl_world.specs.Entries.{line_entries};
ghost use Rattle.wl_world.specs.Journals.{Grow, Journals};
ghost use Rattle.wl_world.specs.World.{World, next, reply};
ghost use Rattle.wl_world.specs.Worlds.{journals_in, world_of};

use wl_core::LockCore;
use wl_types::Memory;
use wl_world::Engine;

/// Answers lines one at a time, each in the world that the lines before it left.
pub trait Answerer {
    /// The world that the next line finds.
    ghost world: { Self → World };

    /// How many entries its journals have had, where it keeps any.
    ghost journals: { Self → Journals };

    /// Answers one line. The line and the reply are without LF. At `Err` nothing is said of the world.
    fn answer(&mut self, line: &[u8]) -> Result<String, Memory>
        ensures reply { IfOk result (λ text. string_bytes text ≡ reply (world self.old) line.now) }
        ensures next { OnOk result (world self.new ≡ next (world self.old) line.now) }
        ensures entries { OnOk result (Grow (journals self.old)
            (λ key. line_entries key (world self.old) (line_reading line.now)) (journals self.new)) };
}

/// The lock managers of all origins.
impl<S: Copy + Drop, C: LockCore<Seed = S>> Answerer for Engine<C> {
    ghost world = { world_of };

    ghost journals = { journals_in C.no_entries };

    fn answer(&mut self, line: &[u8]) -> Result<String, Memory> {
        Engine::answer(self, line)
    }
}
