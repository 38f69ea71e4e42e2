//! One world: all its origins and agents, and what it said last.

ghost use Rattle.std.specs.Prelude.{◌≡◌, option_map, Err, IfOk, OnErr, OnOk, Some, None, if◌then◌else◌, []};
ghost use Rattle.wl_world.specs.World.{next, reply};
ghost use Rattle.wl_c.specs.declared.fault.Fault.TheVariants.{Memory as FaultMemory};
ghost use Rattle.wl_c.specs.Worlds.{Answers, Audits, IsAudit, IsOpening, longer, script_of, world_of_live};
ghost use Rattle.wl_c.specs.inner.Worlds.{MayBeAnswered};

use crate::fault::Fault;
use crate::seed::Seed;
use std::alloc::Global;
use wl_codec::{LF, LONGEST_LINE, split_line};
use wl_index::{IndexCore, random_seed};
use wl_script::{Reader, Writer, audit};
use wl_types::Memory;
use wl_world::Engine;

/// What a world is until a growth is refused.
#[derive(Drop)]
pub struct Live {
    pub engine: Engine<IndexCore>,
    /// The lines that were answered, each with an LF, where the world keeps books: an audit does this script.
    pub script: Option<Vec<u8>>,
}

/// A world, or what is left of one.
#[derive(Drop)]
pub struct World {
    pub alloc: Global,
    pub seed: Seed,
    /// None once a growth was refused.
    pub live: Option<Live>,
    /// What the last call that succeeded said.
    pub reply: Vec<u8>,
}

/// The lines of a world that has none yet.
fn no_lines(alloc: Global, keeps_books: bool) -> Option<Vec<u8>>
    ensures { option_map (λ script. script.items) result ≡ (if keeps_books then Some [] else None) }
{
    if keeps_books {
        Some(Vec::new(alloc))
    } else {
        None
    }
}

/// Why a line can't be answered, if it can't.
fn fault_of_line(line: &[u8]) -> Result<(), Fault>
    ensures { MayBeAnswered line.now result }
{
    if line.len() > LONGEST_LINE {
        return Err(Fault::TooLong);
    }
    match split_line(line) {
        None => Ok(()),
        Some(_) => Err(Fault::LineFeed),
    }
}

/// Answers a line, and keeps it where there are books.
fn answer_line(live: &mut Live, line: &[u8]) -> Result<Vec<u8>, Memory>
    ensures reply { IfOk result (λ said. said.items ≡ reply (world_of_live live.old) line.now) }
    ensures next { OnOk result (world_of_live live.new ≡ next (world_of_live live.old) line.now) }
    ensures script { OnOk result (script_of live.new ≡ longer line.now (script_of live.old)) }
{
    if let Some(script) = &mut live.script {
        script.extend_from_slice(line)?;
        script.push(LF)?;
    }
    Ok(live.engine.answer(line)?.into_bytes())
}

/// The lines of the audit of a script.
fn audit_text(alloc: Global, seed: Seed, script: &[u8]) -> Result<Vec<u8>, Memory>
    ensures { IfOk result (λ said. IsAudit (Some script.now) said.items) }
{
    let mut reader = Reader::new(script);
    let mut writer = Writer::new(Vec::new(alloc));
    match audit(&(seed, alloc), &mut reader, &mut writer) {
        Ok(_) => Ok(writer.into_inner()),
        Err(_) => Err(Memory),
    }
}

impl World {
    /// A world in which nobody has opened.
    pub fn new(alloc: Global, seed: Seed, keeps_books: bool) -> Result<World, Memory>
        ensures { IfOk result (λ world. IsOpening keeps_books world.live) }
    {
        let core_seed = random_seed(&seed)?;
        let engine = Engine::new(alloc, core_seed);
        let script = no_lines(alloc, keeps_books);
        Ok(World {
            alloc,
            seed,
            live: Some(Live { engine, script }),
            reply: Vec::new(alloc),
        })
    }

    /// Drops what the world has, since a growth was refused.
    fn spend(&mut self) -> Result<(), Fault>
        ensures spent { self.new.live ≡ None }
        ensures kept { self.new.reply ≡ self.old.reply }
        ensures fault { result ≡ Err FaultMemory }
    {
        self.live = None;
        Err(Fault::Memory)
    }

    /// Answers a line, which is given without its LF.
    pub fn answer(&mut self, line: &[u8]) -> Result<(), Fault>
        ensures answered { Answers self.old.live line.now result self.new.live self.new.reply.items }
        ensures kept { OnErr result (self.new.reply ≡ self.old.reply) }
    {
        let Some(live) = &mut self.live else {
            return Err(Fault::Spent);
        };
        fault_of_line(line)?;
        match answer_line(live, line) {
            Ok(reply) => {
                self.reply = reply;
                Ok(())
            }
            Err(Memory) => self.spend(),
        }
    }

    /// Says for each manager whether its journal is legal, as the audit of a script of the lines so far does.
    pub fn audit(&mut self) -> Result<(), Fault>
        ensures audited { Audits self.old.live result self.new.live self.new.reply.items }
        ensures kept { OnErr result (self.new.reply ≡ self.old.reply) }
    {
        let Some(live) = &self.live else {
            return Err(Fault::Spent);
        };
        let Some(script) = &live.script else {
            return Err(Fault::NoBooks);
        };
        match audit_text(self.alloc, self.seed, script) {
            Ok(text) => {
                self.reply = text;
                Ok(())
            }
            Err(Memory) => self.spend(),
        }
    }
}
