//! A turn of one connection.

ghost use Rattle.std.specs.Prelude.{◌≡◌, ◌≤◌, ◌⊎◌, [], IfSome, IfNone};
ghost use Rattle.tungstenite.specs.Content.{text, binary};
ghost use Rattle.tungstenite.specs.Socket.{content_of, kind_of};
ghost use Rattle.wl_wire.specs.Turns.{Turns};
ghost use Rattle.wl_wire.specs.inner.Turns.{Answered, Steps, stepped_by};

use crate::ending::{Ending, ending_of, would_block};
use crate::speaker::{Answer, Speaker};
use crate::wire::{Pace, Sending, Wire};
use std::io::{Read, Write};
use std::sync::Wait;
use tungstenite::Message;
use wl_types::Memory;

/// The messages that are read before other connections have their turn.
const BUDGET: u32 = 16;

/// What came of a turn.
pub enum Turn<P> {
    Went(P, Pace),
    /// The connection is to end; the speaker has ended.
    Ended(Ending),
}

/// What came of a step.
pub enum Stepped<P> {
    /// Nothing waits to leave.
    Went(P),
    /// The stream blocks.
    Stops(P),
    /// The connection is to end; the speaker has ended.
    Ended(Ending),
}

/// Sends what waits, pushes what changed, and answers messages, until the stream blocks or others are to have their
/// turn. `may_push` says whether something may have changed for a peer that wants it pushed.
pub fn take_turn<R: Wait, S: Read + Write + Drop, P: Speaker>(
    rt: &R,
    wire: &mut Wire<S>,
    speaker: P,
    may_push: &mut bool,
) -> Turn<P>
    ensures { Turns S.remaining S.contents P.answers P.pushes P.rests (wire.old.socket, speaker) result
        wire.new.socket }
{
    wire.begin_turn();
    match send_waiting(rt, wire, speaker) {
        Stepped::Went(next) => take_steps(rt, wire, next, may_push),
        Stepped::Stops(last) => Turn::Went(last, Pace::Waits),
        Stepped::Ended(ending) => Turn::Ended(ending),
    }
}

/// Takes one step after another, as many as a turn has.
fn take_steps<R: Wait, S: Read + Write + Drop, P: Speaker>(
    rt: &R,
    wire: &mut Wire<S>,
    speaker: P,
    may_push: &mut bool,
) -> Turn<P>
    requires { wire.old.socket.output ≡ [] }
    ensures { Turns S.remaining S.contents P.answers P.pushes P.rests (wire.old.socket, speaker) result
        wire.new.socket }
{
    let mut speaker = speaker;
    for taken in 0..BUDGET {
        match take_step(rt, wire, speaker, may_push) {
            Stepped::Went(next) => speaker = next,
            Stepped::Stops(last) => return Turn::Went(last, wire.pace()),
            Stepped::Ended(ending) => return Turn::Ended(ending),
        }
    }
    Turn::Went(speaker, Pace::Again)
}

/// What follows what was to leave: the speaker ends where that won't.
fn after_sending<R: Wait, P: Speaker>(rt: &R, sending: Sending, speaker: P) -> Stepped<P>
    ensures { result ≡ stepped_by sending speaker }
{
    match sending {
        Sending::Left => Stepped::Went(speaker),
        Sending::Waits => Stepped::Stops(speaker),
        Sending::Failed(ending) => {
            speaker.end(rt);
            Stepped::Ended(ending)
        }
    }
}

/// Sends what waits.
fn send_waiting<R: Wait, S: Read + Write + Drop, P: Speaker>(
    rt: &R,
    wire: &mut Wire<S>,
    speaker: P,
) -> Stepped<P>
    ensures { Steps S.remaining S.contents P.answers P.pushes P.rests 0 (wire.old.socket, speaker) result
        wire.new.socket }
{
    if !wire.is_blocked() {
        return Stepped::Went(speaker);
    }
    let sending = wire.flush();
    after_sending(rt, sending, speaker)
}

/// Pushes what changed, and reads one message and answers it. Nothing waits to leave before.
fn take_step<R: Wait, S: Read + Write + Drop, P: Speaker>(
    rt: &R,
    wire: &mut Wire<S>,
    speaker: P,
    may_push: &mut bool,
) -> Stepped<P>
    requires { wire.old.socket.output ≡ [] }
    ensures { Steps S.remaining S.contents P.answers P.pushes P.rests 1 (wire.old.socket, speaker) result
        wire.new.socket }
{
    match push_changes(rt, wire, speaker, may_push) {
        Stepped::Went(next) => take_message(rt, wire, next),
        other => other,
    }
}

/// Pushes what changed, if something may have.
fn push_changes<R: Wait, S: Read + Write + Drop, P: Speaker>(
    rt: &R,
    wire: &mut Wire<S>,
    speaker: P,
    may_push: &mut bool,
) -> Stepped<P>
    requires { wire.old.socket.output ≡ [] }
    ensures { Steps S.remaining S.contents P.answers P.pushes P.rests 0 (wire.old.socket, speaker) result
        wire.new.socket }
{
    if !*may_push {
        return Stepped::Went(speaker);
    }
    *may_push = false;
    match speaker.push(rt) {
        Ok((next, said)) => match said {
            Some(text) => {
                let pushing = wire.put(text);
                after_sending(rt, pushing, next)
            }
            None => Stepped::Went(next),
        },
        Err(Memory) => Stepped::Ended(Ending::Memory),
    }
}

/// Reads one message and answers it.
fn take_message<R: Wait, S: Read + Write + Drop, P: Speaker>(
    rt: &R,
    wire: &mut Wire<S>,
    speaker: P,
) -> Stepped<P>
    requires { wire.old.socket.output ≡ [] }
    ensures { Steps S.remaining S.contents P.answers P.pushes P.rests 1 (wire.old.socket, speaker) result
        wire.new.socket }
{
    if !wire.may_read {
        return Stepped::Stops(speaker);
    }
    match wire.read() {
        Ok(message) => {
            if message.is_close() {
                // Its answer waits in the socket, so that whoever sees it finds the speaker ended.
                speaker.end(rt);
                return Stepped::Ended(Ending::Closed);
            }
            match data_of(&message) {
                Some(given) => answer(rt, wire, speaker, given),
                // The answer to a ping waits in the socket.
                None => send_waiting(rt, wire, speaker),
            }
        }
        Err(error) => {
            wire.may_read = wire.has_more();
            if would_block(&error) {
                stop(rt, wire, speaker)
            } else {
                speaker.end(rt);
                Stepped::Ended(ending_of(&error))
            }
        }
    }
}

/// Sends what waits, and stops in any case.
fn stop<R: Wait, S: Read + Write + Drop, P: Speaker>(
    rt: &R,
    wire: &mut Wire<S>,
    speaker: P,
) -> Stepped<P>
    ensures { Steps S.remaining S.contents P.answers P.pushes P.rests 0 (wire.old.socket, speaker) result
        wire.new.socket }
{
    match send_waiting(rt, wire, speaker) {
        Stepped::Went(next) => Stepped::Stops(next),
        other => other,
    }
}

/// What a message says, if it is a text or bytes.
fn data_of(message: &Message) -> Option<&[u8]>
    ensures given { IfSome result (λ given. (content_of message.now ≡ text given.now)
        ⊎ (content_of message.now ≡ binary given.now)) }
    ensures idle { IfNone result (2 ≤ kind_of message.now) }
{
    match message {
        Message::Text(text) => Some(text.as_str().as_bytes()),
        Message::Binary(bytes) => Some(bytes.as_slice()),
        Message::Ping(_) | Message::Pong(_) | Message::Close(_) => None,
    }
}

/// Answers a message that came.
fn answer<R: Wait, S: Read + Write + Drop, P: Speaker>(
    rt: &R,
    wire: &mut Wire<S>,
    speaker: P,
    given: &[u8],
) -> Stepped<P>
    ensures { Answered S.contents P.answers (wire.old.socket, speaker) given.now result wire.new.socket }
{
    match speaker.answer(rt, given) {
        Ok((next, said)) => match said {
            Answer::Text(text) => {
                let replying = wire.put(text);
                after_sending(rt, replying, next)
            }
            Answer::End(ending) => {
                next.end(rt);
                Stepped::Ended(ending)
            }
        },
        Err(Memory) => Stepped::Ended(Ending::Memory),
    }
}
