//! Whether the trees of the groups hold the records that are defined from the file maps.
ghost use Rattle.std.specs.Prelude.{◌≡◌, ◌<◌, ◌↔◌, AllPairs, Contains, IfOk, MatchOption, OnOk};
ghost use Rattle.xr_base.specs.declared.geometry.TheConstants.{GROUPS};
ghost use Rattle.xr_check.specs.Verdicts.{AreAllGroups, AreTreesSound, IsFirstTree, IsVerdict};
ghost use Rattle.xr_group.specs.Next.{IsShorter, StartsBefore};

use crate::loaded::Loaded;
use crate::trees::{CountTree, FreeTree, OwnerTree, SizeTree};
use crate::verdict::{TreeName, Verdict};
use crate::walk::first_difference;
use std::alloc::Global;
use xr_base::{Addr, GroupNo, NoMemory, Run};
use xr_group::Group;
use xr_maps::Maps;

/// The first tree of a group that differs from the records that are defined from the maps, and the key of the difference.
#[derive(Clone, Copy)]
struct Difference {
    tree: TreeName,
    key: Addr,
}

/// Puts runs that rise by their blocks into the order of their lengths, and then of their blocks.
fn order_by_length(runs: &mut Vec<Run>) -> Result<(), NoMemory>
    requires rising { AllPairs StartsBefore runs.old.items }
    ensures rising { OnOk result (AllPairs IsShorter runs.new.items) }
    ensures same { (run : _) → Contains runs.new.items run ↔ Contains runs.old.items run }
{
    // The sort is stable, so runs of one length stay in the order of their blocks.
    runs.sort_by_key(|run| run.len)
}

/// The first tree of a group that differs, if one does.
fn differing_tree(
    alloc: Global,
    maps: &Maps,
    group: &Group,
    number: GroupNo,
) -> Result<Option<Difference>, NoMemory>
    requires known { number.0 < GROUPS }
    requires number { group.now.number ≡ number.0 }
    ensures { IfOk result (λ found. MatchOption found (AreTreesSound maps.now group.now) (λ d. IsFirstTree maps.now group.now d.tree d.key)) }
{
    let owners = maps.owners(alloc, number)?;
    if let Some(key) = first_difference::<OwnerTree>(group, &owners) {
        let tree = TreeName::Owners;
        return Ok(Some(Difference { tree, key }));
    }
    let shared = maps.shared(alloc, number)?;
    if let Some(key) = first_difference::<CountTree>(group, &shared) {
        let tree = TreeName::Shared;
        return Ok(Some(Difference { tree, key }));
    }
    let mut free = maps.free(alloc, number)?;
    if let Some(key) = first_difference::<FreeTree>(group, &free) {
        let tree = TreeName::Free;
        return Ok(Some(Difference { tree, key }));
    }
    order_by_length(&mut free)?;
    if let Some(key) = first_difference::<SizeTree>(group, &free) {
        let tree = TreeName::Sizes;
        return Ok(Some(Difference { tree, key }));
    }
    Ok(None)
}

/// Whether each tree of each group holds just the records that are defined from the file maps, and where not.
pub fn judge(alloc: Global, loaded: &Loaded) -> Result<Verdict, NoMemory>
    requires { AreAllGroups loaded.now.groups.items }
    ensures { IfOk result (IsVerdict loaded.now.maps loaded.now.groups.items) }
{
    for (place, group) in loaded.groups.iter().enumerate() {
        let number = GroupNo(place as u32);
        if let Some(found) = differing_tree(alloc, &loaded.maps, group, number)? {
            return Ok(Verdict::Differs {
                tree: found.tree,
                group: number,
                key: found.key,
            });
        }
    }
    Ok(Verdict::Sound)
}
