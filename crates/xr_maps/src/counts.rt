//! How many owners the data blocks of a group have, and the runs of blocks with one number of them.
ghost use Rattle.std.specs.Prelude.{◌≡◌, ◌+◌, ◌*◌, ◌<◌, ◌≤◌, ◌^◌, ◌↔◌, ◌==◌, if◌then◌else◌, ℕ, IsTrue, IfOk, length, slice_index};
ghost use Rattle.xr_base.specs.Address.{address_of};
ghost use Rattle.xr_base.specs.declared.geometry.TheConstants.{GROUPS};
ghost use Rattle.xr_maps.specs.Records.{count_below, maps_to, AreReferenceRecords, AreFreeRecords};
ghost use Rattle.xr_maps.specs.Tables.{AreTables, maps_of_tables, slot_of};
ghost use Rattle.xr_maps.specs.Counts.{IsWanted, AreOwnerCounts, owners_in_tables, first_data_of, IsEqualLen, HasRunsOfCounts};

use crate::records::Counted;
use std::alloc::Global;
use xr_base::geometry::{DATA_BLOCKS, FIRST_DATA_BLOCK, GROUP_BLOCKS};
use xr_base::{Addr, GroupNo, NoMemory, Run};

/// Which blocks a search for runs takes, by their number of owners.
#[derive(Clone, Copy)]
enum Wanted {
    Free,
    Shared,
}

impl Wanted {
    fn takes(self, count: u32) -> bool
        ensures { IsTrue result ↔ IsWanted self count }
    {
        match self {
            Wanted::Free => count == 0,
            Wanted::Shared => count >= 2,
        }
    }
}

/// The address of the group's first data block.
fn first_data(group: GroupNo) -> u32
    requires { group.0 < GROUPS }
    ensures { result ≡ first_data_of group.0 }
{
    group.0 * GROUP_BLOCKS + FIRST_DATA_BLOCK
}

/// Counts an owner of the block, where it is one of those from `first` on that are counted.
fn count_owner(counts: &mut [u32], first: u32, at: Addr)
    requires room { (i : ℕ) → i < length counts.old → slice_index counts.old i + 1 < 2 ^ 32 }
    ensures { (i : ℕ) → i < length counts.old → slice_index counts.new i
        ≡ slice_index counts.old i + (if at.0 == first + i then 1 else 0) }
{
    if at.0 >= first {
        let place = (at.0 - first) as usize;
        if place < counts.len() {
            counts[place] += 1;
        }
    }
}

/// Counts the owners in one file of the blocks from `first` on.
#[tactic(auto, using(crate::proofs::CountLemmas::count_below_laws))]
fn count_owners(counts: &mut [u32], first: u32, table: &[Option<Addr>])
    requires room { (i : ℕ) → i < length counts.old → slice_index counts.old i + length table.now < 2 ^ 32 }
    ensures { (i : ℕ) → i < length counts.old → slice_index counts.new i
        ≡ slice_index counts.old i + count_below (λ off. maps_to (address_of (first + i)) (slot_of table.now off)) (length table.now) }
{
    for slot in table {
        if let Some(at) = *slot {
            count_owner(counts, first, at);
        }
    }
}

/// Counts the owners in all files of the blocks from `first` on.
fn count_all_owners(counts: &mut [u32], first: u32, tables: &[Vec<Option<Addr>>])
    requires tables { AreTables tables.now }
    requires zero { (i : ℕ) → i < length counts.old → slice_index counts.old i ≡ 0 }
    ensures { (i : ℕ) → i < length counts.old → slice_index counts.new i ≡ owners_in_tables tables.now (address_of (first + i)) }
{
    for table in tables {
        count_owners(counts, first, table);
    }
}

/// The number of owners of each data block of the group.
fn owner_counts(
    alloc: Global,
    tables: &[Vec<Option<Addr>>],
    group: GroupNo,
) -> Result<Vec<u32>, NoMemory>
    requires tables { AreTables tables.now }
    requires group { group.0 < GROUPS }
    ensures { IfOk result (λ counts. AreOwnerCounts (maps_of_tables tables.now) group.0 counts.items) }
{
    let mut counts = vec![in alloc; 0; DATA_BLOCKS as usize]?;
    count_all_owners(&mut counts, first_data(group), tables);
    Ok(counts)
}

/// How many of the counts from `from` on equal the one there, one after another.
fn equal_len(counts: &[u32], from: usize) -> usize
    requires { from < length counts.now }
    ensures { IsEqualLen counts.now from result }
{
    let count = counts[from];
    let mut len = 1;
    while from + len < counts.len() && counts[from + len] == count {
        len += 1;
    }
    len
}

/// What a list of the runs of one count has of each: the run alone, or its count too.
trait FromCounted: Copy {
    ghost use Rattle.xr_maps.specs.declared.records.Counted.{Counted};

    ghost from_counted: { Counted → Self };

    fn from_counted(counted: Counted) -> Self
        ensures { result ≡ from_counted counted };
}

impl FromCounted for Run {
    ghost from_counted = { λ counted. counted.run };

    fn from_counted(counted: Counted) -> Run {
        counted.run
    }
}

impl FromCounted for Counted {
    ghost from_counted = { λ counted. counted };

    fn from_counted(counted: Counted) -> Counted {
        counted
    }
}

/// The longest runs of blocks with one count that is wanted, where the counts are those of the blocks from `first` on.
fn runs_of_counts<T: FromCounted>(
    alloc: Global,
    first: u32,
    counts: &[u32],
    wanted: Wanted,
) -> Result<Vec<T>, NoMemory>
    requires { first + length counts.now < 2 ^ 32 }
    ensures { IfOk result (λ records. HasRunsOfCounts T.from_counted first counts.now (IsWanted wanted) records.items) }
{
    let mut records = Vec::new(alloc);
    let mut place = 0;
    while place < counts.len() {
        let len = equal_len(counts, place);
        if wanted.takes(counts[place]) {
            let run = Run {
                start: Addr(first + place as u32),
                len: len as u32,
            };
            records.push(T::from_counted(Counted {
                run,
                count: counts[place],
                staged: false,
            }))?;
        }
        place += len;
    }
    Ok(records)
}

/// The reference records of a group, by start.
pub fn shared_in(
    alloc: Global,
    tables: &[Vec<Option<Addr>>],
    group: GroupNo,
) -> Result<Vec<Counted>, NoMemory>
    requires tables { AreTables tables.now }
    requires group { group.0 < GROUPS }
    ensures { IfOk result (λ records. AreReferenceRecords (maps_of_tables tables.now) group.0 records.items) }
{
    let counts = owner_counts(alloc, tables, group)?;
    runs_of_counts(alloc, first_data(group), &counts, Wanted::Shared)
}

/// The free records of a group, by start.
pub fn free_in(
    alloc: Global,
    tables: &[Vec<Option<Addr>>],
    group: GroupNo,
) -> Result<Vec<Run>, NoMemory>
    requires tables { AreTables tables.now }
    requires group { group.0 < GROUPS }
    ensures { IfOk result (λ runs. AreFreeRecords (maps_of_tables tables.now) group.0 runs.items) }
{
    let counts = owner_counts(alloc, tables, group)?;
    runs_of_counts(alloc, first_data(group), &counts, Wanted::Free)
}
