//! The key of a lock manager, and the order of keys.

ghost use Rattle.std.specs.Prelude.{◌≡◌, IfOk};

use crate::bucket::BucketName;
use crate::key::OriginKey;
use std::alloc::Global;
use std::cmp::Ordering;
use std::hash::{Hash, Hasher};
use wl_types::Memory;

/// What has a lock manager: a bucket of an origin. Keys are ordered by origin, then bucket.
#[derive(Debug, Drop)]
pub struct ManagerKey {
    pub origin: OriginKey,
    pub bucket: BucketName,
}

impl ManagerKey {
    pub fn copy(&self, alloc: Global) -> Result<ManagerKey, Memory>
        ensures { IfOk result (λ made. made ≡ self.now) }
    {
        Ok(ManagerKey {
            origin: self.origin.copy(alloc)?,
            bucket: self.bucket.copy(alloc)?,
        })
    }
}

impl PartialEq for ManagerKey {
    ghost use Rattle.std.proofs.Common.{rules};
    ghost use Rattle.std.specs.Cmp.Rules.{comparing};
    ghost use Rattle.std.specs.Cmp as order;
    ghost use Rattle.std.specs.Ordering.{is_eq};
    ghost use Rattle.wl_origin.specs.Manager.{manager_cmp, manager_cmp_total};

    ghost eq = { λ a b. is_eq (manager_cmp a b) };

    ghost laws = { order.partial_equiv_from_equiv (order.eq_by_cmp_equiv manager_cmp_total) };

    fn eq(&self, other: &ManagerKey) -> bool {
        self.cmp(other).is_eq()
    }
}

impl Eq for ManagerKey {
    ghost use Rattle.std.specs.Cmp as order;
    ghost use Rattle.wl_origin.specs.Manager.{manager_cmp_total};

    ghost laws = { order.eq_by_cmp_equiv manager_cmp_total };
}

impl PartialOrd for ManagerKey {
    ghost use Rattle.std.specs.Prelude.{Some};
    ghost use Rattle.std.specs.Cmp as order;
    ghost use Rattle.wl_origin.specs.Manager.{manager_cmp, manager_cmp_total};

    ghost partial_cmp = { λ a b. Some (manager_cmp a b) };

    ghost laws = { order.partial_order_from_total manager_cmp_total };

    fn partial_cmp(&self, other: &ManagerKey) -> Option<Ordering> {
        Some(self.cmp(other))
    }
}

impl Ord for ManagerKey {
    ghost use Rattle.std.proofs.Common.{rules};
    ghost use Rattle.std.specs.Cmp.Rules.{comparing};
    ghost use Rattle.wl_origin.specs.Manager.{manager_cmp, manager_cmp_total};

    ghost cmp = { manager_cmp };

    ghost total = { manager_cmp_total };

    ghost matches_partial_cmp = { Prim.search (comparing, rules) };

    ghost matches_eq = { Prim.search (comparing, rules) };

    fn cmp(&self, other: &ManagerKey) -> Ordering {
        self.origin
            .cmp(&other.origin)
            .then(self.bucket.cmp(&other.bucket))
    }
}

impl Hash for ManagerKey {
    ghost use Rattle.wl_origin.specs.Manager.{manager_writes, manager_writes_alike};

    ghost hash_input = { manager_writes };

    ghost respects_eq = { manager_writes_alike };

    fn hash<H: Hasher>(&self, state: &mut H) {
        self.origin.hash(state);
        self.bucket.hash(state);
    }
}
