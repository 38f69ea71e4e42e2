//! One command, and a list of them, on any core.

ghost use Rattle.std.specs.Prelude.{◌≡◌, ◌≤◌, length, take, IfOk, IfErr, OnOk};
ghost use Rattle.wl_machine.specs.Step.{replies_of, state_after};
ghost use Rattle.wl_core.specs.Answers.{Answers, content_of, is_memory};

use crate::lock_core::LockCore;
use crate::room::push_in_room;
use std::alloc::Global;
use wl_machine::{Command, Reply};
use wl_types::Refusal;

/// Does one command by the core's call of that name. The reply is the machine's; where a growth was refused it is
/// `Refused(Memory)`, which the machine never replies.
pub fn apply<C: LockCore>(core: &mut C, command: &Command) -> Reply
    ensures { Answers (content_of C.state C.recent core.old) command.now (content_of C.state C.recent core.new) result }
{
    match command {
        Command::Enter(kind) => match core.open(*kind) {
            Ok(number) => Reply::Agent(number),
            Err(refusal) => Reply::Refused(refusal),
        },
        Command::SetActive(agent, active) => match core.set_active(*agent, *active) {
            Ok(()) => Reply::Done,
            Err(refusal) => Reply::Refused(refusal),
        },
        Command::NewSignal(agent) => match core.new_signal(*agent) {
            Ok(number) => Reply::Signal(number),
            Err(refusal) => Reply::Refused(refusal),
        },
        Command::Request(agent, ask) => match core.request(*agent, ask) {
            Ok(number) => Reply::Request(number),
            Err(refusal) => Reply::Refused(refusal),
        },
        Command::Take(id) => Reply::Took(core.take(*id)),
        Command::Release(agent, id) => Reply::Released(core.release(*agent, *id)),
        Command::Abort(agent, signal, reason) => match core.abort(*agent, *signal, *reason) {
            Ok(answer) => Reply::Aborted(answer),
            Err(refusal) => Reply::Refused(refusal),
        },
        Command::Terminate(agent) => match core.terminate(*agent) {
            Ok(()) => Reply::Done,
            Err(refusal) => Reply::Refused(refusal),
        },
        Command::Query(agent) => match core.snapshot(*agent) {
            Ok(snapshot) => Reply::Seen(snapshot),
            Err(refusal) => Reply::Refused(refusal),
        },
    }
}

/// Whether the reply says that memory was refused, which the machine never replies.
pub fn lacks_memory(reply: &Reply) -> bool
    ensures { result ≡ is_memory reply.now }
{
    matches!(reply, Reply::Refused(Refusal::Memory))
}

/// Does the commands in order, and gives all replies. Where memory was refused it gives the number of commands
/// that were done, and the core stands after just these.
pub fn run_commands<C: LockCore>(
    alloc: Global,
    core: &mut C,
    commands: &[Command],
) -> Result<Vec<Reply>, u64>
    ensures replies { IfOk result (λ replies. replies.items ≡ replies_of commands.now (C.state core.old)) }
    ensures state { OnOk result (C.state core.new ≡ state_after commands.now (C.state core.old)) }
    ensures within { IfErr result (λ done. done ≤ length commands.now) }
    ensures part { IfErr result (λ done. C.state core.new ≡ state_after (take done commands.now) (C.state core.old)) }
{
    let mut replies = match Vec::with_capacity(alloc, commands.len()) {
        Ok(replies) => replies,
        Err(_) => return Err(0),
    };
    let mut done = 0;
    for command in commands {
        let reply = apply(core, command);
        if lacks_memory(&reply) {
            return Err(done);
        }
        push_in_room(&mut replies, reply);
        done += 1;
    }
    Ok(replies)
}
