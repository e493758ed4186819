//! The image that formatting makes, one block at a time.
ghost use Rattle.std.specs.Prelude.{◌≡◌, ◌<◌, ◌≤◌, length};
ghost use Rattle.xr_headers.specs.FreshImage.{fresh_block_of, fresh_front_block, fresh_file_block, fresh_group_block};

use crate::codec::clear;
use crate::file_core::{Core, put_core};
use crate::fresh_leaves::{put_long_leaf, put_short_leaf};
use crate::fresh_log::put_fresh_log;
use crate::group_head::{GroupHead, put_group};
use crate::layout::FREE_MAP_BYTES;
use crate::superblock::{Super, put_super};
use uuid::Uuid;
use xr_base::geometry::{
    BLOCK_BYTES, BLOCKS, CYCLES, DATA_BLOCKS, FILE_BLOCKS, FILES, FIRST_DATA_BLOCK,
    FIRST_FILE_BLOCK, FIRST_GROUP_BLOCK, FIRST_INODE, FIRST_LOG_BLOCK, GROUP_BLOCKS, GROUPS,
};
use xr_base::layout::{BY_BLOCK_MAGIC, BY_SIZE_MAGIC, REFERENCE_MAGIC, REVERSE_MAGIC};
use xr_base::{FileNo, GroupNo};

/// The first byte of a map in which the blocks from 5 on are free.
const FRESH_MAP_START: u8 = 0xE0;

/// A mask in which the blocks from 2 on are free.
const FRESH_MASK: u32 = 0xFC;

fn put_fresh_front(block: u32, uuid: &Uuid, cycle: u32, out: &mut [u8])
    requires front { block < FIRST_FILE_BLOCK }
    requires room { length out.old ≡ BLOCK_BYTES }
    ensures { out.new ≡ fresh_front_block uuid.now cycle block }
{
    match block {
        0 => put_super(&Super { uuid: *uuid }, out),
        FIRST_LOG_BLOCK => put_fresh_log(uuid, cycle, out),
        _ => clear(out),
    }
}

fn put_fresh_core(file: FileNo, uuid: &Uuid, out: &mut [u8])
    requires known { file.0 < FILES }
    requires room { length out.old ≡ BLOCK_BYTES }
    ensures { out.new ≡ fresh_file_block uuid.now file.0 0 }
{
    let core = Core {
        ino: FIRST_INODE + u64::from(file.0),
        uuid: *uuid,
        root: 1,
        level: 0,
        free: FRESH_MASK,
    };
    put_core(&core, out);
}

fn put_fresh_file(file: FileNo, place: u32, uuid: &Uuid, out: &mut [u8])
    requires known { file.0 < FILES }
    requires within { place < FILE_BLOCKS }
    requires room { length out.old ≡ BLOCK_BYTES }
    ensures { out.new ≡ fresh_file_block uuid.now file.0 place }
{
    match place {
        0 => put_fresh_core(file, uuid, out),
        1 => {
            let block = FIRST_FILE_BLOCK + file.0 * FILE_BLOCKS + 1;
            put_long_leaf(uuid, block, FIRST_INODE + u64::from(file.0), out);
        }
        _ => clear(out),
    }
}

fn put_fresh_head(group: GroupNo, uuid: &Uuid, out: &mut [u8])
    requires known { group.0 < GROUPS }
    requires room { length out.old ≡ BLOCK_BYTES }
    ensures { out.new ≡ fresh_group_block uuid.now group.0 0 }
{
    let mut free = [0xFF; FREE_MAP_BYTES];
    free[0] = FRESH_MAP_START;
    let head = GroupHead {
        group,
        uuid: *uuid,
        roots: [1, 2, 3, 4],
        levels: [0; 4],
        free,
    };
    put_group(&head, out);
}

fn put_fresh_group(group: GroupNo, place: u32, uuid: &Uuid, out: &mut [u8])
    requires known { group.0 < GROUPS }
    requires within { place < GROUP_BLOCKS }
    requires room { length out.old ≡ BLOCK_BYTES }
    ensures { out.new ≡ fresh_group_block uuid.now group.0 place }
{
    let whole = [FIRST_DATA_BLOCK, DATA_BLOCKS];
    let block = FIRST_GROUP_BLOCK + group.0 * GROUP_BLOCKS + place;
    match place {
        0 => put_fresh_head(group, uuid, out),
        1 => put_short_leaf(BY_BLOCK_MAGIC, &whole, uuid, block, group.0, out),
        2 => put_short_leaf(BY_SIZE_MAGIC, &whole, uuid, block, group.0, out),
        3 => put_short_leaf(REVERSE_MAGIC, &[], uuid, block, group.0, out),
        4 => put_short_leaf(REFERENCE_MAGIC, &[], uuid, block, group.0, out),
        _ => clear(out),
    }
}

/// Writes that block of a fresh image whose log begins with the cycle, from 1 to 3,999,999,999.
pub fn fresh_block(block: u32, uuid: &Uuid, cycle: u32, out: &mut [u8])
    requires block { block < BLOCKS }
    requires some_cycle { 1 ≤ cycle }
    requires last_cycle { cycle < CYCLES }
    requires room { length out.old ≡ BLOCK_BYTES }
    ensures { out.new ≡ fresh_block_of uuid.now cycle block }
{
    if block < FIRST_FILE_BLOCK {
        put_fresh_front(block, uuid, cycle, out);
    } else if block < FIRST_GROUP_BLOCK {
        let place = block - FIRST_FILE_BLOCK;
        put_fresh_file(FileNo(place / FILE_BLOCKS), place % FILE_BLOCKS, uuid, out);
    } else {
        let place = block - FIRST_GROUP_BLOCK;
        put_fresh_group(
            GroupNo(place / GROUP_BLOCKS),
            place % GROUP_BLOCKS,
            uuid,
            out,
        );
    }
}
