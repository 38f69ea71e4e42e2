//! The origin of a manager's key, and the order of origins.

ghost use Rattle.std.specs.Prelude.{◌≡◌, string_bytes, IfOk};
ghost use Rattle.wl_origin.specs.Origin.{tuple_text};

use crate::serialize::serialize;
use std::alloc::Global;
use std::cmp::Ordering;
use std::hash::{Hash, Hasher};
use std::marker::Model;
use wl_types::Memory;

/// An origin that has lock managers: a scheme, the text of a host and a port. Keys are ordered by these three, the
/// texts by their bytes and the port as a number.
#[derive(Debug, Drop)]
pub struct OriginKey {
    scheme: String,
    host: String,
    port: u16,
}

impl Model for OriginKey {
    ghost use Rattle.std.specs.Prelude.{string_bytes};
    ghost use Rattle.wl_origin.specs.Origin.{Tuple};

    ghost Value = { Tuple };

    ghost view = { λ k. record { scheme = string_bytes k.scheme; host = string_bytes k.host; port = k.port } };
}

impl OriginKey {
    pub(crate) fn new(scheme: String, host: String, port: u16) -> OriginKey
        ensures scheme { result.scheme ≡ string_bytes scheme }
        ensures host { result.host ≡ string_bytes host }
        ensures port { result.port ≡ port }
    {
        OriginKey { scheme, host, port }
    }

    pub fn copy(&self, alloc: Global) -> Result<OriginKey, Memory>
        ensures { IfOk result (λ made. made ≡ self.now) }
    {
        Ok(OriginKey {
            scheme: String::from_str(alloc, self.scheme.as_str())?,
            host: String::from_str(alloc, self.host.as_str())?,
            port: self.port,
        })
    }

    /// The origin as text, such as `https://a.test` or `http://[::1]:8080`: HTML's "serialization of an origin", in
    /// which a port stands only where it isn't the scheme's own.
    pub fn text(&self, alloc: Global) -> Result<String, Memory>
        ensures { IfOk result (λ text. string_bytes text ≡ tuple_text self.now) }
    {
        serialize(alloc, self.scheme.as_str(), self.host.as_str(), self.port)
    }
}

impl PartialEq for OriginKey {
    ghost use Rattle.std.proofs.Common.{rules};
    ghost use Rattle.std.specs.Cmp.Rules.{comparing};
    ghost use Rattle.std.specs.Cmp as order;
    ghost use Rattle.std.specs.Ordering.{is_eq};
    ghost use Rattle.wl_origin.specs.Origin.{tuple_cmp, tuple_cmp_total};

    ghost eq = { λ a b. is_eq (tuple_cmp a b) };

    ghost laws = { order.partial_equiv_from_equiv (order.eq_by_cmp_equiv tuple_cmp_total) };

    fn eq(&self, other: &OriginKey) -> bool {
        self.cmp(other).is_eq()
    }
}

impl Eq for OriginKey {
    ghost use Rattle.std.specs.Cmp as order;
    ghost use Rattle.wl_origin.specs.Origin.{tuple_cmp_total};

    ghost laws = { order.eq_by_cmp_equiv tuple_cmp_total };
}

impl PartialOrd for OriginKey {
    ghost use Rattle.std.specs.Prelude.{Some};
    ghost use Rattle.std.specs.Cmp as order;
    ghost use Rattle.wl_origin.specs.Origin.{tuple_cmp, tuple_cmp_total};

    ghost partial_cmp = { λ a b. Some (tuple_cmp a b) };

    ghost laws = { order.partial_order_from_total tuple_cmp_total };

    fn partial_cmp(&self, other: &OriginKey) -> Option<Ordering> {
        Some(self.cmp(other))
    }
}

impl Ord for OriginKey {
    ghost use Rattle.std.proofs.Common.{rules};
    ghost use Rattle.std.specs.Cmp.Rules.{comparing};
    ghost use Rattle.wl_origin.specs.Origin.{tuple_cmp, tuple_cmp_total};

    ghost cmp = { tuple_cmp };

    ghost total = { tuple_cmp_total };

    ghost matches_partial_cmp = { Prim.search (comparing, rules) };

    ghost matches_eq = { Prim.search (comparing, rules) };

    fn cmp(&self, other: &OriginKey) -> Ordering {
        self.scheme
            .cmp(&other.scheme)
            .then(self.host.cmp(&other.host))
            .then(self.port.cmp(&other.port))
    }
}

impl Hash for OriginKey {
    ghost use Rattle.wl_origin.specs.Origin.{tuple_writes, tuple_writes_alike};

    ghost hash_input = { tuple_writes };

    ghost respects_eq = { tuple_writes_alike };

    fn hash<H: Hasher>(&self, state: &mut H) {
        self.scheme.hash(state);
        self.host.hash(state);
        self.port.hash(state);
    }
}
