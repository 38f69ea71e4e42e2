//! The plain core's lists, for those who count or copy them.

ghost use Rattle.std.specs.Prelude.{◌≡◌};

use crate::plain::PlainCore;
use wl_machine::{AgentRow, HeldRow, PendingRow, SignalRow};

impl PlainCore {
    /// The live agents, by number.
    pub fn agents(&self) -> &[AgentRow]
        ensures { result.now ≡ self.now.state.agents }
    {
        self.agents.as_slice()
    }

    /// The signals of the live agents, by number.
    pub fn signals(&self) -> &[SignalRow]
        ensures { result.now ≡ self.now.state.signals }
    {
        self.signals.as_slice()
    }

    /// The locks, in the order in which they were granted.
    pub fn held(&self) -> &[HeldRow]
        ensures { result.now ≡ self.now.state.held }
    {
        self.held.as_slice()
    }

    /// The requests that wait, each name's in the order of its queue.
    pub fn pending(&self) -> &[PendingRow]
        ensures { result.now ≡ self.now.state.pending }
    {
        self.pending.as_slice()
    }
}
