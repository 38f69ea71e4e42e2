//! Whom a status server answers.

ghost use Rattle.std.specs.Prelude.{◌≡◌, IfOk, true};
ghost use Rattle.std.specs.Option.{option_copied};
ghost use Rattle.wl_admission.specs.Loopback.{IsOfThisMachine};
ghost use Rattle.wl_status.specs.Routes.{wanted_tokens};

use crate::hosts::Hosts;
use std::alloc::{AllocError, Global};
use std::net::SocketAddr;
use wl_admission::{Tokens, is_of_this_machine};

/// Whom a status server answers.
#[derive(Debug, Drop)]
pub struct Admission {
    pub hosts: Hosts,
    /// Whether it is reached from this machine alone, and then by whoever is there.
    pub is_of_this_machine: bool,
}

impl Admission {
    /// That of a server that listens at this address, and is reached by these names too.
    pub fn of(alloc: Global, address: SocketAddr, names: &[&str]) -> Result<Admission, AllocError>
        ensures { IfOk result (λ admission. admission.is_of_this_machine ≡ true → IsOfThisMachine address) }
    {
        Ok(Admission {
            hosts: Hosts::of(alloc, address, names)?,
            is_of_this_machine: is_of_this_machine(address),
        })
    }

    /// The tokens of which a request has to bring one, of those that the server has; none where it need not.
    pub(crate) fn required_tokens<'a>(&self, tokens: Option<&'a Tokens>) -> Option<&'a Tokens>
        ensures { option_copied result ≡ wanted_tokens self.now.is_of_this_machine (option_copied tokens.entry) }
    {
        if self.is_of_this_machine {
            None
        } else {
            tokens
        }
    }
}
