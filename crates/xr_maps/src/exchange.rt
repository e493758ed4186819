//! Slots of the tables of all files, and the exchange of what two ranges of them hold.
ghost use Rattle.std.specs.Prelude.{◌≡◌, ◌<◌, ◌==◌, ◌&&◌, if◌then◌else◌, ℕ, IfSome};
ghost use Rattle.xr_base.specs.Address.{IsData};
ghost use Rattle.xr_base.specs.declared.geometry.TheConstants.{FILES, OFFSETS};
ghost use Rattle.xr_maps.specs.FileMaps.{address_at};
ghost use Rattle.xr_maps.specs.Steps.{IsFileRange, AreApart, exchanged_address};
ghost use Rattle.xr_maps.specs.Tables.{AreTables, maps_of_tables};

use xr_base::{Addr, FileNo};

/// The block at an offset of a file.
pub fn slot_at(tables: &[Vec<Option<Addr>>], file: FileNo, off: u32) -> Option<Addr>
    requires tables { AreTables tables.now }
    requires file { file.0 < FILES }
    requires off { off < OFFSETS }
    ensures address { result ≡ address_at (maps_of_tables tables.now) file.0 off }
    ensures block { IfSome result IsData }
{
    tables[file.0 as usize][off as usize]
}

fn put_slot(tables: &mut [Vec<Option<Addr>>], file: FileNo, off: u32, slot: Option<Addr>)
    requires tables { AreTables tables.old }
    requires file { file.0 < FILES }
    requires off { off < OFFSETS }
    requires block { IfSome slot IsData }
    ensures tables { AreTables tables.new }
    ensures slots { (f o : ℕ) → address_at (maps_of_tables tables.new) f o
        ≡ (if f == file.0 && o == off then slot else address_at (maps_of_tables tables.old) f o) }
{
    tables[file.0 as usize][off as usize] = slot;
}

/// Swaps what two offsets hold.
fn swap_slots(
    tables: &mut [Vec<Option<Addr>>],
    file: FileNo,
    off: u32,
    other: FileNo,
    other_off: u32,
)
    requires tables { AreTables tables.old }
    requires range { IsFileRange file off 1 }
    requires other { IsFileRange other other_off 1 }
    ensures tables { AreTables tables.new }
    ensures slots { (f o : ℕ) → address_at (maps_of_tables tables.new) f o
        ≡ exchanged_address (maps_of_tables tables.old) file.0 off other.0 other_off 1 f o }
{
    let held = slot_at(tables, file, off);
    put_slot(tables, file, off, slot_at(tables, other, other_off));
    put_slot(tables, other, other_off, held);
}

/// Swaps what the `len` offsets from `off` on hold with what those of the other file from `other_off` on hold.
pub fn exchange(
    tables: &mut [Vec<Option<Addr>>],
    file: FileNo,
    off: u32,
    other: FileNo,
    other_off: u32,
    len: u32,
)
    requires tables { AreTables tables.old }
    requires range { IsFileRange file off len }
    requires other { IsFileRange other other_off len }
    requires apart { AreApart file off other other_off len }
    ensures tables { AreTables tables.new }
    ensures slots { (f o : ℕ) → address_at (maps_of_tables tables.new) f o
        ≡ exchanged_address (maps_of_tables tables.old) file.0 off other.0 other_off len f o }
{
    for i in 0..len {
        swap_slots(tables, file, off + i, other, other_off + i);
    }
}
