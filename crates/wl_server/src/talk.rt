//! One conversation.

ghost use Rattle.wl_server.specs.Talks.{Talked};
ghost use Rattle.wl_server.specs.inner.Talks.{Turns};

use crate::transport::{Sending, Speaker, Transport};
use crate::{ServeEnd, ServeFault};
use std::sync::Wait;
use wl_types::Memory;

/// Is told how a connection goes on, by the connection's own thread, which waits until the call returns.
pub trait Gate {
    /// Before the first read. Connections are numbered from 1, as they were accepted.
    fn enter(&self, connection: u64);

    /// After each reply, with the number of replies that were sent.
    fn answered(&self, connection: u64, count: u64);
}

/// What came of one turn.
#[derive(Drop)]
pub enum Turn<P> {
    /// A message was answered.
    Went(P),
    /// The conversation ended, and its speaker too.
    Ended(Option<ServeFault>),
}

/// Takes a message and sends its reply.
pub fn take_turn<R: Wait, L: Transport, P: Speaker>(
    rt: &R,
    transport: &mut L,
    speaker: P,
) -> Turn<P>
    ensures { Turns L.hears L.closes L.says L.fails P.answers (transport.old, speaker) result transport.new }
{
    let data = match transport.receive(rt) {
        Ok(Some(data)) => data,
        Ok(None) => {
            speaker.end(rt);
            return Turn::Ended(None);
        }
        Err(fault) => {
            speaker.end(rt);
            return Turn::Ended(Some(fault));
        }
    };
    match speaker.answer(rt, data.bytes()) {
        Err(Memory) => Turn::Ended(Some(ServeFault::Memory)),
        Ok((next, text)) => match transport.send(text.as_str()) {
            Ok(Sending::Sent) => Turn::Went(next),
            Ok(Sending::Closed) => {
                next.end(rt);
                Turn::Ended(None)
            }
            Err(fault) => {
                next.end(rt);
                Turn::Ended(Some(fault))
            }
        },
    }
}

/// Answers the messages of a connection, each before the next is taken, until the connection ends. Then the speaker
/// has ended too.
pub fn talk<R: Wait, L: Transport, P: Speaker, G: Gate>(
    rt: &R,
    transport: &mut L,
    speaker: P,
    gate: &G,
    connection: u64,
) -> ServeEnd
    ensures { Talked L.hears L.closes L.says L.fails P.answers transport.old speaker result transport.new }
{
    let mut speaker = speaker;
    let mut answered: u64 = 0;
    for _ in rt.forever() {
        match take_turn(rt, transport, speaker) {
            Turn::Ended(fault) => return ServeEnd { answered, fault },
            Turn::Went(next) => speaker = next,
        }
        answered = answered.saturating_add(1);
        gate.answered(connection, answered);
    }
    speaker.end(rt);
    unreachable!()
}
