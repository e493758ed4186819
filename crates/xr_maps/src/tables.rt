//! The table of one file: a slot for each offset, with the block that stands there.
ghost use Rattle.std.specs.Prelude.{◌≡◌, ◌+◌, ◌-◌, ◌<◌, ◌≤◌, ◌^◌, ℕ, Some, None, length, slice_index_or, IfOk, MatchOption};
ghost use Rattle.xr_maps.specs.Steps.{remapped_slot, punched_slot};
ghost use Rattle.xr_maps.specs.Tables.{IsTable, slot_of};
ghost use Rattle.xr_maps.specs.Extents.{IsExtentLen, AreHoles, IsNextExtent};
ghost use Rattle.xr_maps.specs.Records.{AreExtentsOf};

use crate::records::Extent;
use std::alloc::Global;
use xr_base::geometry::OFFSETS;
use xr_base::{Addr, NoMemory};

/// A table without a block.
pub fn empty_table(alloc: Global) -> Result<Vec<Option<Addr>>, NoMemory>
    ensures table { IfOk result (λ t. IsTable t.items) }
    ensures holes { IfOk result (λ t. (o : ℕ) → slot_of t.items o ≡ None) }
{
    vec![in alloc; None; OFFSETS as usize]
}

/// Puts the blocks from `at` on at the `len` offsets from `off` on.
pub fn remap(table: &mut [Option<Addr>], off: usize, len: usize, at: Addr)
    requires within { off + len ≤ length table.old }
    requires addresses { at.0 + len < 2 ^ 32 }
    ensures { (o : ℕ) → slot_of table.new o ≡ remapped_slot off len at o (slot_of table.old o) }
{
    for i in 0..len {
        table[off + i] = Some(Addr(at.0 + i as u32));
    }
}

/// Leaves holes at the `len` offsets from `off` on.
pub fn punch(table: &mut [Option<Addr>], off: usize, len: usize)
    requires within { off + len ≤ length table.old }
    ensures { (o : ℕ) → slot_of table.new o ≡ punched_slot off len o (slot_of table.old o) }
{
    for i in 0..len {
        table[off + i] = None;
    }
}

/// The length of the extent that begins at `off` with the block `at`.
fn extent_len(table: &[Option<Addr>], off: usize, at: Addr) -> usize
    requires within { off < length table.now }
    requires starts { slot_of table.now off ≡ Some at }
    requires addresses { at.0 + length table.now < 2 ^ 32 }
    ensures { IsExtentLen table.now off at result }
{
    let mut len = 1;
    while off + len < table.len() && table[off + len] == Some(Addr(at.0 + len as u32)) {
        len += 1;
    }
    len
}

/// The first extent at or after `from`, where no extent goes on across `from`.
pub fn next_extent(table: &[Option<Addr>], from: usize) -> Option<Extent>
    requires { IsTable table.now }
    ensures { MatchOption result (AreHoles table.now from (length table.now)) (IsNextExtent table.now from) }
{
    for off in from..table.len() {
        if let Some(at) = table[off] {
            return Some(Extent {
                off: off as u32,
                len: extent_len(table, off, at) as u32,
                at,
            });
        }
    }
    None
}

/// The extents of a table, by offset.
pub fn extents_of(alloc: Global, table: &[Option<Addr>]) -> Result<Vec<Extent>, NoMemory>
    requires { IsTable table.now }
    ensures { IfOk result (λ extents. AreExtentsOf (slot_of table.now) extents.items) }
{
    let mut extents = Vec::new(alloc);
    let mut place = 0;
    while let Some(extent) = next_extent(table, place) {
        place = extent.off as usize + extent.len as usize;
        extents.push(extent)?;
    }
    Ok(extents)
}
