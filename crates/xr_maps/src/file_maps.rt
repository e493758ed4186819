//! The maps of all files as tables, and the calls that change and read them.
ghost use Rattle.std.specs.Prelude.{◌≡◌, ◌<◌, IfOk};
ghost use Rattle.xr_base.specs.declared.geometry.TheConstants.{FILES, GROUPS, OFFSETS};
ghost use Rattle.xr_maps.specs.FileMaps.{no_maps, address_at, AreGoodMaps};
ghost use Rattle.xr_maps.specs.Steps.{Fits, applied};
ghost use Rattle.xr_maps.specs.Records.{AreExtents, AreReverseRecords, AreReferenceRecords, AreFreeRecords};
ghost use Rattle.xr_maps.specs.Tables.{AreTables, maps_of_tables};

use crate::counts::{free_in, shared_in};
use crate::exchange::{exchange, slot_at};
use crate::owners::owners_in;
use crate::records::{Counted, Extent, Rev};
use crate::steps::Step;
use crate::tables::{empty_table, extents_of, punch, remap};
use std::alloc::Global;
use std::marker::Model;
use xr_base::geometry::FILES;
use xr_base::{Addr, FileNo, GroupNo, NoMemory, Run};

/// The map of each file, from offsets to data blocks. A call that changes it takes no memory.
#[derive(Drop)]
pub struct Maps {
    tables: Vec<Vec<Option<Addr>>>,
}

impl Model for Maps {
    ghost use Rattle.xr_maps.specs.FileMaps.{FileMaps, maps_code};

    ghost Value = { FileMaps };

    ghost coded = { maps_code };

    ghost use Rattle.xr_maps.specs.Tables.{maps_of_tables, AreTables};

    ghost view = { λ m. maps_of_tables m.tables.items };

    ghost invariant = { λ m. AreTables m.tables.items };
}

fn empty_tables(alloc: Global) -> Result<Vec<Vec<Option<Addr>>>, NoMemory>
    ensures tables { IfOk result (λ tables. AreTables tables.items) }
    ensures maps { IfOk result (λ tables. maps_of_tables tables.items ≡ no_maps) }
{
    let mut tables = Vec::with_capacity(alloc, FILES as usize)?;
    for _ in 0..FILES {
        tables.push(empty_table(alloc)?)?;
    }
    Ok(tables)
}

fn change(tables: &mut [Vec<Option<Addr>>], step: &Step)
    requires tables { AreTables tables.old }
    requires fits { Fits step.now }
    ensures tables { AreTables tables.new }
    ensures maps { maps_of_tables tables.new ≡ applied step.now (maps_of_tables tables.old) }
{
    match *step {
        Step::Remap { file, off, len, at } => {
            remap(&mut tables[file.0 as usize], off as usize, len as usize, at);
        }
        Step::Punch { file, off, len } => {
            punch(&mut tables[file.0 as usize], off as usize, len as usize);
        }
        Step::Exchange {
            file,
            off,
            other,
            other_off,
            len,
        } => {
            exchange(tables, file, off, other, other_off, len);
        }
    }
}

impl Maps {
    /// Maps without a block. All the memory that a later change of them needs is taken here.
    pub fn new(alloc: Global) -> Result<Maps, NoMemory>
        ensures empty { IfOk result (λ maps. maps ≡ no_maps) }
        ensures good { IfOk result AreGoodMaps }
    {
        Ok(Maps {
            tables: empty_tables(alloc)?,
        })
    }

    /// Each file maps data blocks alone, at offsets that there are. That is so of any maps: the call does nothing.
    pub fn map_only_data_blocks(&self)
        ensures { AreGoodMaps self.now }
    {
        // The clause is a law of the tables, which a proof has where they are named.
        let _ = &self.tables;
    }

    /// Applies a step.
    pub fn apply(&mut self, step: &Step)
        requires { Fits step.now }
        ensures applied { self.new ≡ applied step.now self.old }
        ensures good { AreGoodMaps self.new }
    {
        change(&mut self.tables, step);
    }

    /// The block at an offset of a file, or `None` at a hole.
    pub fn at(&self, file: FileNo, off: u32) -> Option<Addr>
        requires file { file.0 < FILES }
        requires off { off < OFFSETS }
        ensures { result ≡ address_at self.now file.0 off }
    {
        slot_at(&self.tables, file, off)
    }

    /// The extents of a file, by offset.
    pub fn extents(&self, alloc: Global, file: FileNo) -> Result<Vec<Extent>, NoMemory>
        requires { file.0 < FILES }
        ensures { IfOk result (λ extents. AreExtents self.now file.0 extents.items) }
    {
        extents_of(alloc, &self.tables[file.0 as usize])
    }

    /// The reverse records of a group, by start, owner and offset. The owner of a file's blocks is its inode number.
    pub fn owners(&self, alloc: Global, group: GroupNo) -> Result<Vec<Rev>, NoMemory>
        requires { group.0 < GROUPS }
        ensures { IfOk result (λ records. AreReverseRecords self.now group.0 records.items) }
    {
        owners_in(alloc, &self.tables, group)
    }

    /// The reference records of a group, by start: the runs of blocks with two or more owners.
    pub fn shared(&self, alloc: Global, group: GroupNo) -> Result<Vec<Counted>, NoMemory>
        requires { group.0 < GROUPS }
        ensures { IfOk result (λ records. AreReferenceRecords self.now group.0 records.items) }
    {
        shared_in(alloc, &self.tables, group)
    }

    /// The free records of a group, by start: the runs of blocks without an owner.
    pub fn free(&self, alloc: Global, group: GroupNo) -> Result<Vec<Run>, NoMemory>
        requires { group.0 < GROUPS }
        ensures { IfOk result (λ runs. AreFreeRecords self.now group.0 runs.items) }
    {
        free_in(alloc, &self.tables, group)
    }
}
