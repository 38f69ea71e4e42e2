//! By which rules peers are admitted.

ghost use Rattle.std.specs.Prelude.{◌≡◌, true, false, is_some, None, IfOk};
ghost use Rattle.std.specs.Arc.{arc_value};
ghost use Rattle.wl_admission.specs.Scopes.{reach_of};

use std::alloc::{AllocError, Global};
use std::io;
use std::io::ErrorKind;
use std::sync::{Arc, Mutex, Wait};
use wl_admission::Rules;

/// The rules by which peers are admitted: those of the network, and those of this machine's file system, who have leave
/// to a socket's file and need no token.
#[derive(Drop)]
pub struct AdmissionRules {
    alloc: Global,
    network: Mutex<Arc<Rules, Global>>,
    local: Arc<Rules, Global>,
    // Whether a peer of the network has to bring a token, from the start on.
    wants_tokens: bool,
    ghost tokenless: { (arc_value local).tokens ≡ None },
}

impl AdmissionRules {
    /// Those of a server that begins with these rules of the network.
    pub fn new(alloc: Global, rules: Rules) -> io::Result<AdmissionRules>
        ensures wants { IfOk result (λ made. made.wants_tokens ≡ is_some rules.tokens) }
        ensures pages { IfOk result (λ made. reach_of (arc_value made.local).trusted ≡ reach_of rules.trusted) }
        ensures fences { IfOk result (λ made. (arc_value made.local).has_fences ≡ rules.has_fences) }
        ensures sharded { IfOk result (λ made. (arc_value made.local).is_sharded ≡ rules.is_sharded) }
    {
        let Ok(local) = rules.copy_without_tokens(alloc) else {
            return Err(io::Error::from(ErrorKind::OutOfMemory));
        };
        let wants_tokens = rules.tokens.is_some();
        Ok(AdmissionRules {
            alloc,
            network: Mutex::new(Arc::new(alloc, rules)?),
            local: Arc::new(alloc, local)?,
            wants_tokens,
        })
    }

    /// Puts other rules of the network in place for the handshakes from now on.
    pub fn set<R: Wait>(&self, rt: &R, rules: Rules) -> Result<(), AllocError> {
        let rules = Arc::new(self.alloc, rules)?;
        *self.network.lock(rt) = rules;
        Ok(())
    }

    /// Those of the network now. `Memory` comes only where the count of their owners is used up.
    pub fn network<R: Wait>(&self, rt: &R) -> Result<Arc<Rules, Global>, AllocError> {
        Arc::try_clone(&*self.network.lock(rt))
    }

    /// Those for a peer of this machine's file system, or of the network.
    pub fn of_peer<R: Wait>(&self, rt: &R, is_local: bool) -> io::Result<Arc<Rules, Global>>
        ensures local { is_local ≡ true → IfOk result (λ rules. (arc_value rules).tokens ≡ None) }
        ensures wanted { is_local ≡ false → self.now.wants_tokens ≡ true
            → IfOk result (λ rules. is_some (arc_value rules).tokens ≡ true) }
    {
        if is_local {
            return Ok(Arc::try_clone(&self.local)?);
        }
        let rules = self.network(rt)?;
        // What a lock guards is whatever was put there last, so this is looked at each time.
        if self.wants_tokens && rules.tokens.is_none() {
            return Err(io::Error::from(ErrorKind::PermissionDenied));
        }
        Ok(rules)
    }
}
