//! WebSockets over a stream that doesn't wait.
//!
//! A handshake is admitted or refused (`Greeting`); then messages are answered and changes pushed in turns
//! (`take_turn`), for as long as the stream doesn't block. Each text leaves whole before the next is made, and nothing
//! is read while something waits to leave: so a peer that doesn't read costs one text of memory. What answers and
//! pushes is a `Speaker`.
#![tactic(auto)]

mod counted;
mod ending;
mod greeter;
mod greeting;
mod speaker;
mod targeted;
mod turn;
mod wire;

pub use crate::counted::Counted;
pub use crate::ending::Ending;
pub use crate::greeter::Greeter;
pub use crate::greeting::{Greeted, Greeting};
pub use crate::speaker::{Answer, Speaker};
pub use crate::turn::{Turn, take_turn};
pub use crate::wire::{Pace, Sending, Wire};
