//! Whether a connection would better be served by another loop.

ghost use Rattle.std.specs.Prelude.{◌≡◌};
ghost use Rattle.wl_loops.specs.Affinity.{after_ask, is_drawn, new_affinity, after_tell};

/// What a change from another loop adds.
const CHANGE: u32 = 4;

/// From here on a connection is drawn.
const FULL: u32 = 32;

/// How much another loop draws a connection: changes that come from there again and again, against what its own peer
/// sends. So one that mostly waits for what others release is drawn, and one that mostly does other things isn't.
///
/// This is a guess at what costs least. A wrong one costs time and nothing else.
#[derive(Clone, Copy, Debug, PartialEq, Eq)]
pub struct Affinity {
    pull: u32,
}

impl Affinity {
    /// Of a connection that nothing draws.
    pub fn new() -> Affinity
        ensures { result ≡ new_affinity }
    {
        Affinity { pull: 0 }
    }

    /// Another loop had a change for it.
    pub fn tell(&mut self)
        ensures { self.new ≡ after_tell self.old }
    {
        self.pull = if self.pull < FULL - CHANGE {
            self.pull + CHANGE
        } else {
            FULL
        };
    }

    /// Its peer sent something.
    pub fn ask(&mut self)
        ensures { self.new ≡ after_ask self.old }
    {
        self.pull = self.pull.saturating_sub(1);
    }

    /// Whether it is to go where its changes come from.
    pub fn is_drawn(&self) -> bool
        ensures { result ≡ is_drawn self.now }
    {
        self.pull >= FULL
    }
}
