//! What a server has behind its event loops.

ghost use Rattle.std.specs.Prelude.{◌≡◌};

use std::io::ErrorKind;
use std::sync::Wait;
use wl_admission::{Admitted, Rejection, Source};
use wl_liveness::Limits;
use wl_types::Memory;
use wl_wire::{Ending, Speaker};

/// Where a connection is: the loop that serves it, and its key there. Another may have that place once it has ended.
#[derive(Clone, Copy, Debug, PartialEq, Eq)]
pub struct Place {
    pub event_loop: usize,
    pub key: usize,
}

/// Which connections of one loop have changes. Whoever marks one waits for nobody.
pub trait Ring {
    /// Whether something was marked since this was last asked. Of several who ask one alone is told so.
    fn take_rung(&self) -> bool;

    /// Whether something was marked, and nobody was told.
    fn is_rung(&self) -> bool;

    /// Puts the keys that were marked in place of those that the list has, and answers whether they are all.
    fn collect(&self, keys: &mut Vec<usize>) -> bool;
}

/// A speaker that knows whether something may have changed.
pub trait Listener: Speaker {
    /// Whether its place was marked since it last looked for changes.
    fn is_marked(&self) -> bool;

    /// A number that it has in common with all that may mark its place: these meet on one loop, if they mark each other
    /// often. None where nobody marks it.
    fn meeting(&self) -> Option<usize>;
}

/// What a server's log may tell of its connections.
#[derive(Clone, Copy, Debug, PartialEq, Eq)]
pub enum Event {
    /// A handshake was refused, or for want of memory a connection that hadn't asked yet.
    Refused(Source, Rejection),
    /// A connection was closed without a word: there was no place for it, nor one to be told so.
    Dropped(Source),
    /// A connection is closed by the server, or was broken.
    Closed(Source, Ending),
    /// A connection ended because what came was no handshake, or too long for one.
    NoHandshake(Source),
    /// A connection ended because its handshake took too long.
    Late(Source),
    /// An open connection ended because nothing came for too long.
    Silent(Source),
    /// A connection goes to the loop of this number, where those are served that it hands over to.
    Moved(Source, usize),
    /// The system gives no further connection for now. Told once, until it gives one again or another reason.
    CannotAccept(AcceptFault),
}

/// Why the system gives no further connection for now.
#[derive(Clone, Copy, Debug, PartialEq, Eq)]
pub enum AcceptFault {
    /// This process has as many files open as it may have.
    FilesOfProcess,
    /// The system has.
    FilesOfSystem,
    Other(ErrorKind),
}

/// What a server has behind its event loops.
pub trait Host {
    type Ring: Ring;

    type Peer: Listener;

    ghost use Rattle.wl_liveness.specs.declared.limits.Limits.{Limits};

    /// What its connections are held to.
    ghost held_to: { Self → Limits };

    /// What its connections are held to.
    fn limits(&self) -> &Limits
        ensures { result.now ≡ held_to self.now };

    /// Is told what happens. It should be short: the loop waits for it.
    fn note(&self, event: Event);

    /// Is told the time by each loop in each of its turns, in milliseconds since the start that all loops have. A loop
    /// that waited longer may be late with an earlier one.
    fn tell_time(&self, now: u64);

    /// Whether a loop's ring was rung since this was last asked. Of several who ask one alone is told so, and looks at
    /// each ring.
    fn take_alarm(&self) -> bool;

    /// The ring of the loop of this number, from 0; none where there is no such loop.
    fn ring(&self, event_loop: usize) -> Option<&Self::Ring>;

    /// Who answers over a connection whose peer was admitted.
    fn begin<R: Wait>(
        &self,
        rt: &R,
        place: Place,
        admitted: Admitted,
    ) -> Result<Self::Peer, Memory>;

    /// From now on what changes for the peer marks this place. Where memory is refused it marks the one before. What
    /// changes meanwhile may mark neither, so whoever calls this looks afterwards for changes.
    fn set_place<R: Wait>(&self, rt: &R, peer: &mut Self::Peer, place: Place) -> Result<(), Memory>;
}
