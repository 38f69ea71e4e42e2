//! What an opened label is.

use wl_origin::ManagerKey;
use wl_session::{InTime, SessionOf};
use wl_types::Kind;

/// The agent of an opened label: one of a manager, with what was last reported to it, or an opaque one, and whether it
/// is active.
#[derive(Drop)]
pub(crate) enum Label {
    Agent(ManagerKey, u64, SessionOf<InTime>),
    Opaque(Kind, bool),
}
