//! Who may come in to a server, and what they may open there.
//!
//! A handshake is admitted, or refused with a status of HTTP, by three of its headers: `Origin`, which every browser
//! sends, `Authorization` and `Sec-WebSocket-Protocol`; and at a server of some origins alone by its target, too. Whom
//! it admits may open the URLs that are in three scopes: what the target names, what the page that it comes from may
//! open, and what its token may. `Places` says how many may be there at once.
#![tactic(auto)]

mod admitting;
mod credentials;
mod laws;
mod loopback;
mod page;
mod pieces;
mod places;
mod rejection;
mod scope;
mod subprotocols;
mod targets;
mod token_file;
mod tokenless;
mod tokens;

pub use admitting::{Admitted, Hello, Rules, admit};
pub use credentials::bearer_in_header;
pub use laws::origins_have_one_target;
pub use loopback::is_of_this_machine;
pub use places::{PlaceLimits, Places, Source};
pub use rejection::Rejection;
pub use scope::{Scope, origin_in};
pub use subprotocols::Subprotocol;
pub use token_file::{TokenFileFault, read_tokens};
pub use tokens::{Grant, Tokens};
