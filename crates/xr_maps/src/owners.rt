//! The reverse records of a group: for each run of its blocks, who owns it.
ghost use Rattle.std.specs.Prelude.{◌≡◌, ◌+◌, ◌<◌, ◌^◌, length, OnOk, IfOk};
ghost use Rattle.xr_maps.specs.Records.{AreReverseRecords};
ghost use Rattle.xr_maps.specs.Owners.{AreOwnersBelow, place_of, record_of};
ghost use Rattle.xr_maps.specs.Tables.{AreTables, maps_of_tables};

use crate::records::{Extent, Rev};
use crate::tables::next_extent;
use std::alloc::Global;
use xr_base::geometry::FIRST_INODE;
use xr_base::{Addr, GroupNo, NoMemory, Run, group_of};

fn owned(extent: &Extent, file: usize) -> Rev
    requires { file < 2 ^ 32 }
    ensures { result ≡ record_of extent.now file }
{
    Rev {
        run: Run {
            start: extent.at,
            len: extent.len,
        },
        owner: FIRST_INODE + file as u64,
        off: u64::from(extent.off),
    }
}

/// Adds the reverse records of one file's blocks in the group, by offset.
fn push_owners(
    records: &mut Vec<Rev>,
    tables: &[Vec<Option<Addr>>],
    file: usize,
    group: GroupNo,
) -> Result<(), NoMemory>
    requires tables { AreTables tables.now }
    requires file { file < length tables.now }
    requires before { AreOwnersBelow (maps_of_tables tables.now) group.0 (place_of file 0) records.old.items }
    ensures { OnOk result (AreOwnersBelow (maps_of_tables tables.now) group.0 (place_of (file + 1) 0) records.new.items) }
{
    let table = &tables[file];
    let mut place = 0;
    while let Some(extent) = next_extent(table, place) {
        if group_of(extent.at) == group {
            records.push(owned(&extent, file))?;
        }
        place = extent.off as usize + extent.len as usize;
    }
    Ok(())
}

/// The reverse records of a group, by owner and offset.
fn owners_by_file(
    alloc: Global,
    tables: &[Vec<Option<Addr>>],
    group: GroupNo,
) -> Result<Vec<Rev>, NoMemory>
    requires { AreTables tables.now }
    ensures { IfOk result (λ records. AreOwnersBelow (maps_of_tables tables.now) group.0 (place_of (length tables.now) 0) records.items) }
{
    let mut records = Vec::new(alloc);
    for file in 0..tables.len() {
        push_owners(&mut records, tables, file, group)?;
    }
    Ok(records)
}

/// The reverse records of a group, by start, owner and offset.
pub fn owners_in(
    alloc: Global,
    tables: &[Vec<Option<Addr>>],
    group: GroupNo,
) -> Result<Vec<Rev>, NoMemory>
    requires { AreTables tables.now }
    ensures { IfOk result (λ records. AreReverseRecords (maps_of_tables tables.now) group.0 records.items) }
{
    let mut records = owners_by_file(alloc, tables, group)?;
    // The sort is stable, so records of one start stay in the order of their owners and offsets.
    records.sort_by_key(|record| record.run.start.0)?;
    Ok(records)
}
