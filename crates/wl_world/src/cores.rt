//! The cores of all managers, in the end.

ghost use Rattle.std.specs.Prelude.{◌≡◌, IfOk, OnOk};
ghost use Rattle.std.specs.List.{IsDistinct};
ghost use Rattle.std.specs.List.Sorted.{IsPermutation, IsSortedByKey, IsStrictlySortedBy};
ghost use Rattle.std.specs.Map.{keys_of};
ghost use Rattle.std.specs.Ordering.{eq_by_cmp};
ghost use Rattle.wl_origin.specs.Manager.{manager_cmp};
ghost use Rattle.wl_world.specs.Cores.{seen_by};

use crate::origin::Origin;
use std::alloc::Global;
use std::collections::HashMap;
use wl_core::LockCore;
use wl_origin::ManagerKey;
use wl_types::Memory;

/// The cores in any order.
fn list_cores<C: LockCore>(
    alloc: Global,
    realm: HashMap<ManagerKey, Origin<C>>,
) -> Result<Vec<(ManagerKey, C)>, Memory>
    ensures distinct { OnOk result (IsDistinct (eq_by_cmp manager_cmp) (keys_of realm.entries)) }
    ensures states { IfOk result (λ cores.
        seen_by C.state cores.items ≡ seen_by (λ m. m.origin.state) realm.entries) }
    ensures entries { IfOk result (λ cores.
        seen_by C.entries cores.items ≡ seen_by (λ m. m.entries) realm.entries) }
{
    let mut cores = Vec::with_capacity(alloc, realm.len())?;
    for (key, origin) in realm {
        cores.push((key, origin.into_core()))?;
    }
    Ok(cores)
}

/// Puts cores in the order of their keys.
fn sort_cores<C: LockCore>(cores: &mut Vec<(ManagerKey, C)>)
    ensures permutation { IsPermutation cores.old.items cores.new.items }
    ensures sorted { IsSortedByKey (λ entry. entry.0) manager_cmp cores.new.items }
{
    cores.sort_unstable_by(|one, other| one.0.cmp(&other.0));
}

/// The cores in the order of their keys.
pub(crate) fn take_cores<C: LockCore>(
    alloc: Global,
    realm: HashMap<ManagerKey, Origin<C>>,
) -> Result<Vec<(ManagerKey, C)>, Memory>
    ensures distinct { OnOk result (IsDistinct (eq_by_cmp manager_cmp) (keys_of realm.entries)) }
    ensures in_order { IfOk result (λ cores. IsStrictlySortedBy manager_cmp (keys_of cores.items)) }
    ensures states { IfOk result (λ cores.
        IsPermutation (seen_by (λ m. m.origin.state) realm.entries) (seen_by C.state cores.items)) }
    ensures entries { IfOk result (λ cores.
        IsPermutation (seen_by (λ m. m.entries) realm.entries) (seen_by C.entries cores.items)) }
{
    let mut cores = list_cores(alloc, realm)?;
    sort_cores(&mut cores);
    Ok(cores)
}
