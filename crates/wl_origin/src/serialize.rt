//! An origin as text.

ghost use Rattle.std.specs.Prelude.{◌≡◌, IfOk, string_bytes};
ghost use Rattle.url.specs.Scheme as url_spec;
ghost use Rattle.wl_origin.specs.Origin.{origin_text};

use std::alloc::Global;
use wl_types::Memory;

/// `scheme://host`, and `:port` where the port isn't the scheme's own.
pub fn serialize(alloc: Global, scheme: &str, host: &str, port: u16) -> Result<String, Memory>
    ensures { IfOk result (λ text. string_bytes text ≡ origin_text scheme.now host.now port) }
{
    if default_port(scheme) == Some(port) {
        Ok(format!(in alloc; "{scheme}://{host}")?)
    } else {
        Ok(format!(in alloc; "{scheme}://{host}:{port}")?)
    }
}

/// The port that a URL of this scheme has where it names none (URL, "special scheme").
#[tactic(auto, unfolding(url::specs::Scheme::default_port))]
fn default_port(scheme: &str) -> Option<u16>
    ensures { result ≡ url_spec.default_port scheme.now }
{
    if scheme == "http" || scheme == "ws" {
        Some(80)
    } else if scheme == "https" || scheme == "wss" {
        Some(443)
    } else if scheme == "ftp" {
        Some(21)
    } else {
        None
    }
}
