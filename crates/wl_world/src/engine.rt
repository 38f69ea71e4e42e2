//! What answers the lines of a script.

ghost use Rattle.std.specs.Prelude.{◌≡◌, IfOk, OnOk, string_bytes};
ghost use Rattle.wl_codec.specs.Reading.{line_reading};
ghost use Rattle.wl_world.specs.Cores.{IsListOf, seen_by};
ghost use Rattle.wl_world.specs.Entries.{line_entries};
ghost use Rattle.wl_world.specs.Journals.{Grow};
ghost use Rattle.wl_world.specs.Origins.{unused};
ghost use Rattle.wl_world.specs.World.{next, opening, reply};
ghost use Rattle.wl_world.specs.Worlds.{journals_in, world_of};

use crate::answer::plain_text;
use crate::cores::take_cores;
use crate::label::Label;
use crate::labels::serve_named;
use crate::origin::Origin;
use crate::supplies::Supplies;
use std::alloc::Global;
use std::collections::HashMap;
use wl_codec::{Line, Message, Outcome, Scratch, read_line_with};
use wl_core::LockCore;
use wl_origin::ManagerKey;
use wl_types::Memory;

/// The managers of all buckets of all origins, over cores of any kind, and the labels that are open. Contracts see the
/// world that these stand for.
#[derive(Drop)]
pub struct Engine<C: LockCore> {
    supplies: Supplies<C::Seed>,
    realm: HashMap<ManagerKey, Origin<C>>,
    labels: HashMap<String, Label>,
    // Lent to the reading of each line.
    scratch: Scratch,
}

impl<S: Copy + Drop, C: LockCore<Seed = S>> Engine<C> {
    /// A world in which nobody has opened. Each core in it is made with this seed.
    pub fn new(alloc: Global, seed: S) -> Engine<C>
        ensures world { world_of result ≡ opening }
        ensures entries { journals_in C.no_entries result ≡ λ key. C.no_entries }
    {
        Engine {
            supplies: Supplies { alloc, seed },
            realm: HashMap::new(alloc),
            labels: HashMap::new(alloc),
            scratch: Scratch::new(alloc),
        }
    }

    /// Answers a line, which is given without its LF, by the reply without its own. After want of memory the engine
    /// promises nothing more.
    #[tactic(auto, unfolding(crate::specs::World::answered, crate::specs::World::next, crate::specs::World::reply))]
    pub fn answer(&mut self, line: &[u8]) -> Result<String, Memory>
        ensures reply { IfOk result (λ text. string_bytes text ≡ reply (world_of self.old) line.now) }
        ensures next { OnOk result (world_of self.new ≡ next (world_of self.old) line.now) }
        ensures entries { OnOk result (Grow (journals_in C.no_entries self.old)
            (λ key. line_entries key (world_of self.old) (line_reading line.now)) (journals_in C.no_entries self.new)) }
    {
        let alloc = self.supplies.alloc;
        match read_line_with(alloc, line, &mut self.scratch)? {
            Line::Bad(id, fault) => plain_text(alloc, id, Outcome::Fault(fault)),
            Line::Good(name, message) => {
                let Message { id, body } = message;
                serve_named(
                    &self.supplies,
                    &mut self.realm,
                    &mut self.labels,
                    name.as_str(),
                    id,
                    body,
                )
            }
        }
    }

    /// The cores of the managers in which agents opened, in the order of their keys.
    pub fn into_cores(self) -> Result<Vec<(ManagerKey, C)>, Memory>
        ensures states { IfOk result (λ cores.
            IsListOf unused.state (λ key. ((world_of self).realm key).state) (seen_by C.state cores.items)) }
        ensures entries { IfOk result (λ cores.
            IsListOf C.no_entries (journals_in C.no_entries self) (seen_by C.entries cores.items)) }
    {
        take_cores(self.supplies.alloc, self.realm)
    }
}
