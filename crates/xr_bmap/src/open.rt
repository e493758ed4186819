//! Whether some blocks are a file: its core, its tree, and that the two part the pool.
ghost use Rattle.std.specs.Prelude.{◌≡◌, ◌*◌, ◌<◌, length, vec_len, IfErr, IfOk};
ghost use Rattle.xr_base.specs.declared.geometry.TheConstants.{BLOCK_BYTES, FILES, FILE_BLOCKS, UUID_BYTES};
ghost use Rattle.xr_bmap.specs.File.{root_of_core};
ghost use Rattle.xr_bmap.specs.OpenFile.{RefusesFile};
ghost use Rattle.xr_bmap.specs.Opening.{IsOpened, RefusesOpened};
ghost use Rattle.xr_pool.specs.Overlay.{blocks_in, pool_size};
ghost use Rattle.xr_tree.specs.Room.{IsFileTree};

use std::alloc::Global;
use uuid::Uuid;
use xr_base::FileNo;
use xr_base::geometry::{BLOCK_BYTES, FILE_BLOCKS, FIRST_FILE_BLOCK, UUID_BYTES};
use xr_headers::layout::CORE_FREE_PLACE;
use xr_headers::{Core, HeaderFault, take_core};
use xr_kinds::Mapping;
use xr_open::{OpenFault, are_all_marked};
use xr_pool::Overlay;
use xr_tree::Tree;

fn are_identifier(bytes: &[u8; UUID_BYTES])
    ensures { length bytes.now ≡ UUID_BYTES }
{}

/// Does nothing: the type says how many bytes an identifier has.
fn is_identifier(uuid: &Uuid)
    ensures { length uuid.now ≡ UUID_BYTES }
{
    are_identifier(uuid.as_bytes());
}

/// The overlay of a file whose core is right, and the core.
pub(crate) fn open_core(
    alloc: Global,
    file: FileNo,
    uuid: &Uuid,
    blocks: Vec<u8>,
) -> Result<(Overlay, Core), OpenFault>
    requires room { vec_len blocks ≡ FILE_BLOCKS * BLOCK_BYTES }
    requires known { file.0 < FILES }
    ensures opened { IfOk result (λ made. IsOpened file.0 uuid.now blocks.items made.0 made.1) }
    ensures refused { IfErr result (RefusesFile file.0 uuid.now (blocks_in FILE_BLOCKS blocks.items)) }
{
    is_identifier(uuid);
    let core = take_core(&blocks[..BLOCK_BYTES], file, uuid)?;
    let first = FIRST_FILE_BLOCK + FILE_BLOCKS * file.0;
    let over = Overlay::new(alloc, blocks, first, &[core.free as u8])?;
    Ok((over, core))
}

/// The tree that the core names, where it and the free blocks have the whole pool.
pub(crate) fn open_tree(over: &Overlay, core: &Core) -> Result<Tree<Mapping>, OpenFault>
    requires pool { pool_size over.now ≡ FILE_BLOCKS }
    ensures tree { IfOk result (λ tree. (tree ≡ root_of_core core.now) × IsFileTree over.now tree) }
    ensures refused { IfErr result (RefusesOpened over.now core.now) }
{
    let mut seen = [0];
    let tree = Tree::verify(over, core.root, core.level, &mut seen)?;
    if are_all_marked(over, &seen) {
        Ok(tree)
    } else {
        Err(OpenFault::Header(HeaderFault {
            block: over.place(0),
            field: CORE_FREE_PLACE as u32,
        }))
    }
}
