//! A speaker that ends when it is let go.

ghost use Rattle.std.specs.Prelude.{◌≡◌, Some, None};
ghost use Rattle.std.specs.Option.{option_copied};

use std::sync::Wait;
use wl_wire::Speaker;

/// A speaker, with what it needs to end: so that a connection can be dropped, and its speaker ends then.
pub struct Seat<'a, R: Wait, P: Speaker> {
    rt: &'a R,
    speaker: Option<P>,
}

impl<'a, R: Wait, P: Speaker> Seat<'a, R, P> {
    /// With this speaker in it.
    pub fn new(rt: &'a R, speaker: P) -> Seat<'a, R, P>
        ensures { result.speaker ≡ Some speaker }
    {
        Seat {
            rt,
            speaker: Some(speaker),
        }
    }

    /// Who is in it; none in the middle of a turn.
    pub fn speaker(&self) -> Option<&P>
        ensures { option_copied result ≡ self.now.speaker }
    {
        self.speaker.as_ref()
    }

    /// Takes the speaker out for a turn.
    pub fn take(&mut self) -> Option<P>
        ensures taken { result ≡ self.old.speaker }
        ensures empty { self.new.speaker ≡ None }
    {
        self.speaker.take()
    }

    /// Puts it back. Of two the one that was there ends.
    pub fn put(&mut self, speaker: P)
        ensures { self.new.speaker ≡ Some speaker }
    {
        if let Some(other) = self.speaker.replace(speaker) {
            other.end(self.rt);
        }
    }
}

impl<R: Wait, P: Speaker> Drop for Seat<'_, R, P> {
    fn drop(self) {
        let Seat { rt, speaker } = self;
        if let Some(speaker) = speaker {
            speaker.end(rt);
        }
    }
}
