//! What is shown of a server.

use crate::metrics::Metrics;
use std::alloc::Global;
use std::sync::{Arc, Wait};
use std::time::Clock;
use wl_admission::Rules;
use wl_origin::OriginKey;
use wl_types::Memory;

/// What is shown of a server: a view of it that threads share. It says what holds at some moment of the call; what one
/// call says needn't fit what another did.
pub trait Overview {
    /// Whether each event loop answers within 2 s. It waits for that.
    fn is_healthy<R: Wait + Clock>(&self, rt: &R) -> bool;

    /// What is counted. What isn't counted isn't there.
    fn metrics<R: Wait>(&self, rt: &R) -> Result<Metrics, Memory>;

    /// What is held and asked for, of all origins or of one, as JSON.
    fn locks_text<R: Wait + Clock>(
        &self,
        rt: &R,
        origin: Option<&OriginKey>,
    ) -> Result<Vec<u8>, Memory>;

    /// The rules by which handshakes are admitted now. Their tokens let the status be read, where it wants one.
    fn rules<R: Wait>(&self, rt: &R) -> Result<Arc<Rules, Global>, Memory>;
}
