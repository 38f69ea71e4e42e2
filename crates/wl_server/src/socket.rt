//! A WebSocket as a transport.

ghost use Rattle.std.specs.Prelude.{◌≡◌, ◌≤◌, ◌⊎◌, IfSome, IfNone, IfOk, IfErr};
ghost use Rattle.tungstenite.specs.Content.{text, binary};
ghost use Rattle.tungstenite.specs.Socket.{content_of, kind_of};
ghost use Rattle.wl_server.specs.inner.Talks.{data_bytes};
ghost use Rattle.wl_server.specs.Serving.{Begins};
ghost use Rattle.wl_server.specs.declared.fault.ServeFault.TheVariants.{Handshake, Memory};

use crate::ServeFault;
use crate::transport::{Data, Sending, Transport};
use std::alloc::Global;
use std::io;
use std::io::{ErrorKind, Read, Write};
use std::sync::Wait;
use tungstenite::handshake::HandshakeError;
use tungstenite::{Error, MaskKeys, Message, NoMask, WebSocket, WebSocketConfig};
use wl_codec::LONGEST_LINE;

/// The bytes of one read of the stream.
const READ: usize = 8_192;

/// The messages that are looked at for the close frame of a peer that has left.
const UNREAD: u32 = 1_024;

/// A stream, whose writes go nowhere once its peer has left: else the WebSocket would send before each read what it
/// couldn't send.
#[derive(Drop)]
struct PeerStream<S> {
    stream: S,
    is_left: bool,
}

impl<S: Read> Read for PeerStream<S> {
    ghost remaining = { λ peer_stream. S.remaining peer_stream.stream };

    fn read(&mut self, buf: &mut [u8]) -> io::Result<usize> {
        self.stream.read(buf)
    }
}

impl<S: Write> Write for PeerStream<S> {
    ghost use Rattle.std.specs.Prelude.{None, if◌then◌else◌};

    ghost contents = { λ peer_stream. if peer_stream.is_left then None else S.contents peer_stream.stream };

    fn write(&mut self, buf: &[u8]) -> io::Result<usize> {
        if self.is_left {
            return Ok(buf.len());
        }
        self.stream.write(buf)
    }

    fn flush(&mut self) -> io::Result<()> {
        if self.is_left {
            return Ok(());
        }
        self.stream.flush()
    }
}

/// A WebSocket of a peer that asked for one.
#[derive(Drop)]
pub struct Socket<S> {
    alloc: Global,
    inner: WebSocket<PeerStream<S>, NoMask>,
    // The peer sent a close frame. Whatever fails from then on is no fault.
    closing: bool,
}

/// Shakes hands with the peer of a stream.
pub fn accept<S: Read + Write + Drop>(alloc: Global, stream: S) -> Result<Socket<S>, ServeFault>
    ensures begins { IfOk result (λ socket. Begins socket.inner) }
    ensures fault { IfErr result (λ fault. (fault ≡ Handshake) ⊎ (fault ≡ Memory)) }
{
    let peer_stream = PeerStream {
        stream,
        is_left: false,
    };
    match tungstenite::accept(alloc, peer_stream) {
        Ok(accepted) => {
            let mut inner = accepted;
            inner.set_config(
                WebSocketConfig::default()
                    .max_message_size(Some(LONGEST_LINE))
                    .max_frame_size(Some(LONGEST_LINE))
                    .read_buffer_size(READ),
            );
            Ok(Socket {
                alloc,
                inner,
                closing: false,
            })
        }
        Err(HandshakeError::Failure(Error::OutOfMemory)) => Err(ServeFault::Memory),
        Err(_) => Err(ServeFault::Handshake),
    }
}

/// What a text or a binary message has; none of a ping, a pong or a close frame.
fn data_of(message: Message) -> Option<Data>
    ensures given { IfSome result (λ given. (content_of message ≡ text (data_bytes given))
        ⊎ (content_of message ≡ binary (data_bytes given))) }
    ensures idle { IfNone result (2 ≤ kind_of message) }
{
    match message {
        Message::Text(text) => Some(Data::Text(text)),
        Message::Binary(bytes) => Some(Data::Binary(bytes)),
        Message::Ping(_) | Message::Pong(_) | Message::Close(_) => None,
    }
}

fn fault_of(error: &Error) -> ServeFault {
    match error {
        Error::Capacity(_) => ServeFault::TooLong,
        Error::OutOfMemory => ServeFault::Memory,
        _ => ServeFault::Stream,
    }
}

/// Whether an error says that the peer has left.
fn has_left(error: &Error) -> bool {
    match error {
        Error::Io(error) => matches!(
            error.kind(),
            ErrorKind::BrokenPipe | ErrorKind::ConnectionReset | ErrorKind::ConnectionAborted
        ),
        _ => false,
    }
}

impl<S: Read + Write + Drop> Socket<S> {
    /// Whether a peer that has left sent a close frame, among what it sent last. The messages before it are dropped.
    fn has_closed(&mut self) -> bool {
        self.inner.get_mut().is_left = true;
        for _ in 0..UNREAD {
            match self.inner.read() {
                Ok(Message::Close(_)) => return true,
                Ok(_) => {}
                Err(_) => return false,
            }
        }
        false
    }
}

impl<S: Read + Write + Drop> Transport for Socket<S> {
    ghost use Rattle.std.specs.Prelude.{None, if◌then◌else◌};
    ghost use Rattle.tungstenite.specs.Content.{text};
    ghost use Rattle.wl_server.specs.Sockets.{Hears, Sends};

    ghost hears = { λ old message new. Hears (λ peer_stream. S.remaining peer_stream.stream) old.inner message
        new.inner };

    ghost closes = { λ old new. Unit {0} };

    ghost says = { λ old words new. Sends (λ peer_stream. if peer_stream.is_left then None
        else S.contents peer_stream.stream) old.inner (text words) new.inner };

    ghost fails = { λ old fault new. Unit {0} };

    fn receive<R: Wait>(&mut self, rt: &R) -> Result<Option<Data>, ServeFault> {
        for _ in rt.forever() {
            match self.inner.read() {
                Ok(message) => {
                    let is_close = message.is_close();
                    if let Some(data) = data_of(message) {
                        return Ok(Some(data));
                    }
                    // The crate answers a ping before its next read.
                    self.closing |= is_close;
                }
                Err(error) => {
                    return if self.closing {
                        Ok(None)
                    } else {
                        Err(fault_of(&error))
                    };
                }
            }
        }
        unreachable!()
    }

    fn send(&mut self, text: &str) -> Result<Sending, ServeFault> {
        let Ok(message) = Message::text(self.alloc, text) else {
            return Err(ServeFault::Memory);
        };
        match self.inner.send(message) {
            Ok(()) => Ok(Sending::Sent),
            Err(error) => {
                if has_left(&error) && self.has_closed() {
                    Ok(Sending::Closed)
                } else {
                    Err(fault_of(&error))
                }
            }
        }
    }
}
