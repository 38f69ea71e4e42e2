//! Addresses of this machine alone.

ghost use Rattle.std.specs.Prelude.{◌≡◌, true};
ghost use Rattle.wl_admission.specs.Loopback.{IsOfThisMachine};

use std::net::SocketAddr;

/// Whether an address is of this machine alone.
pub fn is_of_this_machine(address: SocketAddr) -> bool
    ensures { result ≡ true → IsOfThisMachine address }
{
    address.ip().to_canonical().is_loopback()
}
