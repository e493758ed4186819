//! Whether some blocks are a group: its header, its trees one after the other, and that they part the pool.
ghost use Rattle.std.specs.Prelude.{◌≡◌, ◌+◌, ◌*◌, ◌<◌, ◌≤◌, ℕ, List, length, vec_len, IfErr, IfOk};
ghost use Rattle.xr_base.specs.declared.geometry.TheConstants.{BLOCK_BYTES, FIRST_DATA_BLOCK, GROUPS, UUID_BYTES};
ghost use Rattle.xr_group.specs.Group.{root_at, trees_of_head};
ghost use Rattle.xr_group.specs.OpenGroup.{RefusesGroup};
ghost use Rattle.xr_group.specs.Opening.{OpensHead, OpensNext, RefusesPool};
ghost use Rattle.xr_group.specs.Trees.{HasGroupTrees};
ghost use Rattle.xr_open.specs.Marked.{AreMarkedBlocks};
ghost use Rattle.xr_pool.specs.Overlay.{blocks_in, pool_size};

use crate::trees::Trees;
use std::alloc::Global;
use uuid::Uuid;
use xr_base::GroupNo;
use xr_base::geometry::{BLOCK_BYTES, FIRST_GROUP_BLOCK, GROUP_BLOCKS, UUID_BYTES};
use xr_headers::layout::{FREE_MAP_BYTES, FREE_MAP_PLACE};
use xr_headers::{GroupHead, HeaderFault, take_group};
use xr_open::{OpenFault, are_all_marked};
use xr_pool::Overlay;
use xr_refcount::Refcount;
use xr_rmap::Rmap;
use xr_space::Space;
use xr_tree::{Kept, Tree, TreeFault};

fn are_identifier(bytes: &[u8; UUID_BYTES])
    ensures { length bytes.now ≡ UUID_BYTES }
{}

/// Does nothing: the type says how many bytes an identifier has.
fn is_identifier(uuid: &Uuid)
    ensures { length uuid.now ≡ UUID_BYTES }
{
    are_identifier(uuid.as_bytes());
}

/// The overlay of a group whose header is right, and the header.
pub(crate) fn open_head(
    alloc: Global,
    group: GroupNo,
    uuid: &Uuid,
    blocks: Vec<u8>,
) -> Result<(Overlay, GroupHead), OpenFault>
    requires room { vec_len blocks ≡ FIRST_DATA_BLOCK * BLOCK_BYTES }
    requires known { group.0 < GROUPS }
    ensures opened { IfOk result (λ made. OpensHead group.0 uuid.now blocks.items made.0 made.1) }
    ensures refused { IfErr result (RefusesGroup group.0 uuid.now (blocks_in FIRST_DATA_BLOCK blocks.items)) }
{
    is_identifier(uuid);
    let head = take_group(&blocks[..BLOCK_BYTES], group, uuid)?;
    let first = FIRST_GROUP_BLOCK + GROUP_BLOCKS * group.0;
    let over = Overlay::new(alloc, blocks, first, &head.free)?;
    Ok((over, head))
}

/// The tree whose root a header names at a place, if there is one that has no marked block. Its blocks are marked.
fn open_tree<R: Kept>(
    over: &Overlay,
    head: &GroupHead,
    place: usize,
    seen: &mut [u8],
) -> Result<Tree<R>, TreeFault>
    requires pool { pool_size over.now ≤ 8 * length seen.old }
    requires known { place < 4 }
    ensures next { (ns : List ℕ) → AreMarkedBlocks ns seen.old → OpensNext R.form over.now ns (root_at head.now place) seen.new result }
    ensures long { length seen.new ≡ length seen.old }
{
    Tree::verify(over, head.roots[place], head.levels[place], seen)
}

/// The trees that the header names, where they and the free blocks have the whole pool.
pub(crate) fn open_trees(over: &Overlay, head: &GroupHead) -> Result<Trees, OpenFault>
    requires pool { pool_size over.now ≡ FIRST_DATA_BLOCK }
    ensures trees { IfOk result (λ trees. (trees ≡ trees_of_head head.now) × HasGroupTrees over.now trees) }
    ensures refused { IfErr result (RefusesPool over.now (trees_of_head head.now)) }
{
    let mut seen = [0; FREE_MAP_BYTES];
    let by_block = open_tree(over, head, 0, &mut seen)?;
    let by_size = open_tree(over, head, 1, &mut seen)?;
    let reverse = open_tree(over, head, 2, &mut seen)?;
    let reference = open_tree(over, head, 3, &mut seen)?;
    if are_all_marked(over, &seen) {
        Ok(Trees {
            space: Space { by_block, by_size },
            rmap: Rmap { tree: reverse },
            counts: Refcount { tree: reference },
        })
    } else {
        Err(OpenFault::Header(HeaderFault {
            block: over.place(0),
            field: FREE_MAP_PLACE as u32,
        }))
    }
}
