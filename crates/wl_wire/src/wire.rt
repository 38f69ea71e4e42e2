//! A WebSocket to which texts are put one by one.

ghost use Rattle.std.specs.Prelude.{◌≡◌, [], true, false, string_bytes};
ghost use Rattle.wl_wire.specs.Endings.{close_number};
ghost use Rattle.wl_wire.specs.Wires.{Closes, Pings, Sends, Yields};
ghost use Rattle.wl_wire.specs.inner.Wires.{Says, Unsent};
ghost use Rattle.wl_wire.specs.declared.wire.Sending.TheVariants.{Left};

use crate::counted::Counted;
use crate::ending::{Ending, ending_of, would_block};
use bytes::{ByteStr, Bytes};
use std::io::{Read, Write};
use tungstenite::{Error, Message, NoMask, WebSocket};

/// When a connection is to have its next turn.
#[derive(Clone, Copy, Debug, PartialEq, Eq)]
pub enum Pace {
    /// When its stream is ready for something, or something changed.
    Waits,
    /// When others had theirs: there may be more to read.
    Again,
}

/// What became of what was to leave.
#[derive(Clone, Copy, Debug, PartialEq, Eq)]
pub enum Sending {
    /// It left whole, and all that waited before it.
    Left,
    /// Some of it waits until the stream may be written to.
    Waits,
    /// It can't leave.
    Failed(Ending),
}

/// A WebSocket over a stream that doesn't wait.
#[derive(Drop)]
pub struct Wire<S> {
    pub(crate) socket: WebSocket<Counted<S>, NoMask>,
    // Something waits to leave, or that isn't known.
    is_blocked: bool,
    // Bytes may be there to be read.
    pub(crate) may_read: bool,
    ghost drained: { is_blocked ≡ false → socket.output ≡ [] },
}

impl<S: Read + Write + Drop> Wire<S> {
    pub(crate) fn new(socket: WebSocket<Counted<S>, NoMask>) -> Wire<S>
        ensures { result.socket ≡ socket }
    {
        Wire {
            socket,
            // The first turn looks.
            is_blocked: true,
            may_read: true,
        }
    }

    /// How many bytes came.
    pub fn byte_count(&self) -> u64
        ensures { result ≡ self.now.socket.stream.came }
    {
        self.socket.get_ref().byte_count()
    }

    /// The stream may be ready for something. It is read until it blocks.
    pub fn wake(&mut self)
        ensures socket { self.new.socket ≡ self.old.socket }
        ensures reads { self.new.may_read ≡ true }
    {
        self.wake_for(true);
    }

    /// The same, where each time that the stream becomes ready is told so, and whether its end may be there with what
    /// came. If not, a read that is short is the last one until the next time.
    pub fn wake_for(&mut self, may_end: bool)
        ensures socket { self.new.socket ≡ self.old.socket }
        ensures reads { self.new.may_read ≡ true }
    {
        self.socket.get_ref().hear_of(may_end);
        self.may_read = true;
    }

    /// Whether something waits to leave, or may.
    pub fn is_blocked(&self) -> bool
        ensures { result ≡ false → self.now.socket.output ≡ [] }
    {
        self.is_blocked
    }

    /// Puts a text behind what waits, and sends what the stream takes.
    pub(crate) fn put(&mut self, text: String) -> Sending
        ensures { Says S.contents result self.old.socket (string_bytes text) self.new.socket }
    {
        let Ok(text) = ByteStr::from_string(text) else {
            return Sending::Failed(Ending::Memory);
        };
        self.is_blocked = true;
        match self.socket.send(Message::Text(text)) {
            Ok(()) => {
                self.is_blocked = false;
                Sending::Left
            }
            Err(error) => not_sent(&error),
        }
    }

    /// Sends what waits, as far as the stream takes it.
    pub fn flush(&mut self) -> Sending
        ensures sent { Sends S.contents self.old.socket self.new.socket }
        ensures empty { result ≡ Left → self.new.socket.output ≡ [] }
    {
        self.is_blocked = true;
        match self.socket.flush() {
            Ok(()) => {
                self.is_blocked = false;
                Sending::Left
            }
            Err(error) => not_sent(&error),
        }
    }

    /// Sends a ping, unless something waits: a peer that doesn't read gets none.
    pub fn ping(&mut self) -> Sending
        ensures { Pings S.contents result self.old.socket self.new.socket }
    {
        if self.is_blocked {
            return Sending::Waits;
        }
        self.is_blocked = true;
        match self.socket.send(Message::Ping(Bytes::new())) {
            Ok(()) => {
                self.is_blocked = false;
                Sending::Left
            }
            Err(error) => not_sent(&error),
        }
    }

    /// Sends the close frame for this ending, if it has one and none was sent before.
    pub fn close(&mut self, ending: Ending) -> Sending
        ensures { Closes S.contents result (close_number ending) self.old.socket self.new.socket }
    {
        let Some(frame) = ending.frame() else {
            return self.flush();
        };
        self.is_blocked = true;
        match self.socket.close(Some(frame)) {
            Ok(()) => {
                self.is_blocked = false;
                Sending::Left
            }
            Err(error) => not_sent(&error),
        }
    }

    /// A turn begins, which reads no more than its share.
    pub(crate) fn begin_turn(&self) {
        self.socket.get_ref().begin_turn();
    }

    /// Whether more may be there than this turn could read.
    pub(crate) fn has_more(&self) -> bool {
        self.socket.get_ref().has_more()
    }

    /// When the next turn is to be, where a step of this one stopped.
    pub(crate) fn pace(&self) -> Pace {
        if self.may_read && !self.is_blocked {
            Pace::Again
        } else {
            Pace::Waits
        }
    }

    /// The next message.
    pub(crate) fn read(&mut self) -> Result<Message, Error>
        ensures socket { Yields S.remaining self.old.socket result self.new.socket }
        ensures reads { self.new.may_read ≡ self.old.may_read }
    {
        self.is_blocked = true;
        self.socket.read()
    }

    /// The stream.
    pub fn stream(&self) -> &S
        ensures { result.now ≡ self.now.socket.stream.stream }
    {
        self.socket.get_ref().get_ref()
    }

    /// The stream.
    pub fn into_stream(self) -> S
        ensures { result ≡ self.socket.stream.stream }
    {
        self.socket.into_inner().into_stream()
    }
}

/// What an error says of what was to leave.
fn not_sent(error: &Error) -> Sending
    ensures { Unsent error.now result }
{
    if would_block(error) {
        Sending::Waits
    } else {
        Sending::Failed(ending_of(error))
    }
}
