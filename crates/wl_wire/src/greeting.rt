//! A handshake that goes on as its stream does.

ghost use Rattle.std.specs.Prelude.{◌≡◌, false, Some};
ghost use Rattle.wl_wire.specs.Greetings.{Begins, Opens};

use crate::counted::Counted;
use crate::greeter::Greeter;
use crate::targeted::Targeted;
use crate::wire::Wire;
use std::alloc::{AllocError, Global};
use std::io::{ErrorKind, Read, Write};
use std::sync::{Arc, OnceLock};
use tungstenite::handshake::HandshakeError;
use tungstenite::handshake::server::{ServerHandshake, start};
use tungstenite::{Error, MidHandshake, NoMask, Role, WebSocket, WebSocketConfig};
use wl_admission::{Admitted, Rejection, Rules};

/// The bytes of a handshake at most.
const HEAD: u64 = 16_384;

/// The bytes of a message at most.
const LIMIT: usize = 65_536;

/// The bytes of one read of the stream. The crate's own are so many that a connection takes 128 KiB.
const READ: usize = 2_048;

/// What came of a handshake.
type Verdict = OnceLock<Result<Admitted, Rejection>>;

/// A handshake that isn't done.
#[derive(Drop)]
pub struct Greeting<S: Read + Write + Drop> {
    alloc: Global,
    handshake: MidHandshake<ServerHandshake<Counted<Targeted<S>>, Greeter>>,
    verdict: Arc<Verdict, Global>,
}

/// How far a handshake is.
#[derive(Drop)]
pub enum Greeted<S: Read + Write + Drop> {
    /// The stream blocks.
    Waits(Greeting<S>),
    /// It is done.
    Open(Wire<S>, Admitted),
    /// It was refused, and the peer was told so.
    Refused(Rejection),
    /// What came was no handshake, or too long for one. The peer wasn't told.
    NoHandshake,
    /// The stream failed or ended before it was done, or there was no memory for it.
    Failed,
}

fn config() -> WebSocketConfig
    ensures messages { result.max_message_size ≡ Some 65536 }
    ensures frames { result.max_frame_size ≡ Some 65536 }
    ensures masked { result.accept_unmasked_frames ≡ false }
{
    WebSocketConfig::default()
        .max_message_size(Some(LIMIT))
        .max_frame_size(Some(LIMIT))
        .read_buffer_size(READ)
}

impl<S: Read + Write + Drop> Greeting<S> {
    /// The handshake of a peer that is to be admitted by these rules; without any it is told that there is no place.
    pub fn new(
        alloc: Global,
        stream: S,
        rules: Option<Arc<Rules, Global>>,
    ) -> Result<Greeting<S>, AllocError> {
        let verdict = Arc::new(alloc, OnceLock::new())?;
        let target = Arc::new(alloc, OnceLock::new())?;
        let greeter = Greeter {
            alloc,
            rules,
            target: Arc::try_clone(&target)?,
            verdict: Arc::try_clone(&verdict)?,
        };
        let counted = Counted::new(Targeted::new(alloc, stream, target), HEAD);
        Ok(Greeting {
            alloc,
            handshake: start(alloc, counted, greeter, None),
            verdict,
        })
    }

    /// Goes on until the stream blocks.
    pub fn go_on(self) -> Greeted<S>
        ensures { Opens result }
    {
        let Greeting {
            alloc,
            handshake,
            verdict,
        } = self;
        match handshake.handshake() {
            Ok(socket) => match verdict_of(verdict) {
                Some(Ok(admitted)) => Greeted::Open(make_wire(alloc, socket), admitted),
                Some(Err(rejection)) => Greeted::Refused(rejection),
                None => Greeted::Failed,
            },
            Err(HandshakeError::Interrupted(handshake)) => Greeted::Waits(Greeting {
                alloc,
                handshake,
                verdict,
            }),
            Err(HandshakeError::Failure(error)) => match verdict_of(verdict) {
                Some(Err(rejection)) => Greeted::Refused(rejection),
                None if is_no_handshake(&error) => Greeted::NoHandshake,
                _ => Greeted::Failed,
            },
        }
    }
}

/// Whether a handshake that no verdict was given on failed by what its peer sent. `Counted` has a read fail that would
/// go beyond its limit.
fn is_no_handshake(error: &Error) -> bool {
    match error {
        Error::Io(error) => error.kind() == ErrorKind::FileTooLarge,
        Error::HandshakeIncomplete | Error::OutOfMemory => false,
        _ => true,
    }
}

/// The wire of a handshake that is done, of which no more than the head was read.
fn make_wire<S: Read + Write + Drop>(
    alloc: Global,
    socket: WebSocket<Counted<Targeted<S>>, NoMask>,
) -> Wire<S>
    ensures { Begins result.socket }
{
    let stream = socket.into_inner().into_stream().into_stream();
    let counted = Counted::new(stream, u64::MAX);
    let socket = WebSocket::from_raw_socket(alloc, counted, NoMask, Role::Server, Some(config()));
    Wire::new(socket)
}

/// What a verdict says, if one was given. The handshake has let go of it.
fn verdict_of(verdict: Arc<Verdict, Global>) -> Option<Result<Admitted, Rejection>> {
    match Arc::into_inner(verdict) {
        Some(verdict) => verdict.into_inner(),
        None => None,
    }
}
