//! How operations are packed into the bodies of records, one after another. A region is cut where a record is full, so that it
//! stands in two records at most, and a transaction's header is never cut.
ghost use Rattle.std.specs.Prelude.{◌≡◌, ◌⊎◌, ◌<◌, ◌≤◌, ◌+◌, ◌-◌, ◌++◌, ◌∷◌, [], ℕ, List, None, IfOk, OnOk, length, take};
ghost use Rattle.xr_record.specs.Packing.{HasNoRoom, Pushes, room_in};
ghost use Rattle.xr_record.specs.Rules.{AtEntry, AtHeader, AtPart, AtRegion, Phase};
ghost use Rattle.xr_record.specs.Stream.{header_body};
ghost use Rattle.xr_base.specs.declared.layout.TheConstants.{MAX_BODY_BYTES};
ghost use Rattle.xr_record.specs.declared.layout.TheConstants.{MOST_REGION_BYTES, OPERATION_BYTES, START, TRANSACTION_CLIENT, TRANSACTION_HEADER_BYTES};
ghost use Rattle.xr_log.specs.CommitSteps.{OnlyPushes, StepCommits, StepKeeps, StepRuns};
ghost use Rattle.xr_log.specs.Filling.{Fills, FillsFront, HasSpaceFor, KeepsLimit, fill_of, filled_region, filled_whole, one_full, with_room};
ghost use Rattle.xr_log.specs.Positions.{LeavesSectors};
ghost use Rattle.xr_log.specs.Writing.{IsStep};
ghost use Rattle.xr_log.specs.declared.layout.TheConstants.{GROWING_SECTORS};

use crate::fault::LogFault;
use crate::held::Held;
use crate::writing::write_packed;
use byteorder::{ByteOrder, LittleEndian};
use xr_base::layout::MAX_BODY_BYTES;
use xr_disk::Disk;
use xr_record::layout::{
    COMMIT, OPERATION_BYTES, START, TRANSACTION_CLIENT, TRANSACTION_COUNT_PLACE,
    TRANSACTION_HEADER_BYTES, TRANSACTION_MAGIC, TRANSACTION_TID_PLACE, TRANSACTION_TYPE,
    TRANSACTION_TYPE_PLACE,
};

/// How many records are written for what is pushed, and how long the body is that grows then.
#[derive(Clone, Copy, Debug, PartialEq, Eq)]
pub(crate) struct Fill {
    pub(crate) records: u32,
    pub(crate) len: usize,
}

/// After the record is written where fewer than so many bytes are free.
fn with_room(need: usize, fill: Fill) -> Fill
    requires need { need ≤ 28 }
    requires len { fill.len ≤ MAX_BODY_BYTES }
    requires records { fill.records < 1000 }
    ensures { result ≡ with_room need fill }
{
    if fill.len + need > MAX_BODY_BYTES {
        Fill {
            records: fill.records + 1,
            len: 0,
        }
    } else {
        fill
    }
}

/// After an operation that isn't cut.
pub(crate) fn filled_whole(bytes: usize, fill: Fill) -> Fill
    requires bytes { bytes ≤ TRANSACTION_HEADER_BYTES }
    requires len { fill.len ≤ MAX_BODY_BYTES }
    requires records { fill.records < 1000 }
    ensures is { result ≡ filled_whole bytes fill }
    ensures len { result.len ≤ MAX_BODY_BYTES }
    ensures records { result.records ≤ fill.records + 1 }
{
    let before = with_room(OPERATION_BYTES + bytes, fill);
    Fill {
        records: before.records,
        len: before.len + (OPERATION_BYTES + bytes),
    }
}

/// After a region, which goes on in the next record where it doesn't fit.
pub(crate) fn filled_region(bytes: usize, fill: Fill) -> Fill
    requires bytes { bytes ≤ MOST_REGION_BYTES }
    requires len { fill.len ≤ MAX_BODY_BYTES }
    requires records { fill.records < 1000 }
    ensures is { result ≡ filled_region bytes fill }
    ensures len { result.len ≤ MAX_BODY_BYTES }
    ensures records { result.records ≤ fill.records + 1 }
{
    let before = with_room(OPERATION_BYTES + 1, fill);
    let end = before.len + (OPERATION_BYTES + bytes);
    if end > MAX_BODY_BYTES {
        Fill {
            records: before.records + 1,
            len: OPERATION_BYTES + (end - MAX_BODY_BYTES),
        }
    } else {
        Fill {
            records: before.records,
            len: end,
        }
    }
}

/// Writes the record where fewer than so many bytes are free.
fn make_room<D: Disk>(disk: &mut D, held: &mut Held, need: usize) -> Result<(), LogFault>
    requires need { need ≤ 28 }
    requires up { held.old.down ≡ None }
    requires space { HasSpaceFor held.old (with_room need (fill_of held.old)) }
    ensures runs { (phase : Phase) → StepRuns (D.view disk.old) held.old phase (D.view disk.new) held.new }
    ensures kept { OnOk result ((phase : Phase) → StepKeeps (D.view disk.old) held.old phase (D.view disk.new) held.new phase) }
    ensures fills { OnOk result (Fills held.old held.new (with_room need (fill_of held.old))) }
    ensures room { OnOk result (length held.new.growing.packer.body + need ≤ MAX_BODY_BYTES) }
    ensures limit { KeepsLimit held.old held.new (with_room need (fill_of held.old)) }
    ensures step { IsStep (D.view disk.old) (D.view disk.new) held.old held.new result }
{
    if held.growing.packer.body().len() + need > MAX_BODY_BYTES {
        write_packed(disk, held)?;
    }
    Ok(())
}

/// Pushes an operation with as much of a region from a place on as fits, and answers where it stopped.
fn push_from(held: &mut Held, tid: u32, flags: u8, region: &[u8], from: usize) -> usize
    requires some { (from < length region.now) ⊎ ((from ≡ 0) × (length region.now ≡ 0)) }
    requires room { ¬ HasNoRoom (room_in held.old.growing.packer.body) (length region.now - from) }
    requires sectors { LeavesSectors GROWING_SECTORS held.old.growing.last }
    ensures pushes { Pushes held.old.growing.packer held.new.growing.packer tid TRANSACTION_CLIENT flags region.now from result }
    ensures only { OnlyPushes held.old held.new }
{
    match held
        .growing
        .packer
        .push(tid, TRANSACTION_CLIENT, flags, region, from)
    {
        Some(stop) => stop,
        None => unreachable!(),
    }
}

/// Pushes the operation that begins a transaction.
pub(crate) fn push_start<D: Disk>(disk: &mut D, held: &mut Held, tid: u32) -> Result<(), LogFault>
    requires up { held.old.down ≡ None }
    requires space { HasSpaceFor held.old (filled_whole 0 (fill_of held.old)) }
    ensures runs { (phase : Phase) → StepRuns (D.view disk.old) held.old phase (D.view disk.new) held.new }
    ensures kept { OnOk result (StepKeeps (D.view disk.old) held.old AtEntry (D.view disk.new) held.new (AtHeader tid)) }
    ensures fills { OnOk result (Fills held.old held.new (filled_whole 0 (fill_of held.old))) }
    ensures limit { KeepsLimit held.old held.new (filled_whole 0 (fill_of held.old)) }
    ensures step { IsStep (D.view disk.old) (D.view disk.new) held.old held.new result }
{
    make_room(disk, held, OPERATION_BYTES)?;
    push_from(held, tid, START, &[], 0);
    Ok(())
}

/// The header of a transaction with so many regions.
fn header_body(tid: u32, count: u32) -> [u8; TRANSACTION_HEADER_BYTES]
    ensures { result ≡ header_body tid count }
{
    let mut body = [0; TRANSACTION_HEADER_BYTES];
    LittleEndian::write_u32(&mut body, TRANSACTION_MAGIC);
    LittleEndian::write_u32(&mut body[TRANSACTION_TYPE_PLACE..], TRANSACTION_TYPE);
    LittleEndian::write_u32(&mut body[TRANSACTION_TID_PLACE..], tid);
    LittleEndian::write_u32(&mut body[TRANSACTION_COUNT_PLACE..], count);
    body
}

/// Pushes the header of a transaction, which isn't cut.
pub(crate) fn push_header<D: Disk>(
    disk: &mut D,
    held: &mut Held,
    tid: u32,
    count: u32,
) -> Result<(), LogFault>
    requires up { held.old.down ≡ None }
    requires space { HasSpaceFor held.old (filled_whole TRANSACTION_HEADER_BYTES (fill_of held.old)) }
    ensures runs { (phase : Phase) → StepRuns (D.view disk.old) held.old phase (D.view disk.new) held.new }
    ensures kept { OnOk result (StepKeeps (D.view disk.old) held.old (AtHeader tid) (D.view disk.new) held.new (AtRegion tid count [])) }
    ensures fills { OnOk result (Fills held.old held.new (filled_whole TRANSACTION_HEADER_BYTES (fill_of held.old))) }
    ensures limit { KeepsLimit held.old held.new (filled_whole TRANSACTION_HEADER_BYTES (fill_of held.old)) }
    ensures step { IsStep (D.view disk.old) (D.view disk.new) held.old held.new result }
{
    make_room(disk, held, OPERATION_BYTES + TRANSACTION_HEADER_BYTES)?;
    push_from(held, tid, 0, &header_body(tid, count), 0);
    Ok(())
}

/// Pushes as much of a region as fits, and answers where it stopped.
fn push_front<D: Disk>(
    disk: &mut D,
    held: &mut Held,
    tid: u32,
    region: &[u8],
) -> Result<usize, LogFault>
    requires up { held.old.down ≡ None }
    requires some { 0 < length region.now }
    requires most { length region.now ≤ MOST_REGION_BYTES }
    requires space { HasSpaceFor held.old (with_room 13 (fill_of held.old)) }
    ensures runs { (phase : Phase) → StepRuns (D.view disk.old) held.old phase (D.view disk.new) held.new }
    ensures within { IfOk result (λ stop. (0 < stop) × (stop ≤ length region.now)) }
    ensures whole { IfOk result (λ stop. stop ≡ length region.now → (count : ℕ) (regions : List (List ℕ))
        → StepKeeps (D.view disk.old) held.old (AtRegion tid count regions) (D.view disk.new) held.new
        (AtRegion tid count (regions ++ region.now ∷ []))) }
    ensures cut { IfOk result (λ stop. stop < length region.now → (count : ℕ) (regions : List (List ℕ))
        → StepKeeps (D.view disk.old) held.old (AtRegion tid count regions) (D.view disk.new) held.new
        (AtPart tid count regions (take stop region.now))) }
    ensures fills { IfOk result (λ stop. FillsFront held.old held.new (length region.now) stop) }
    ensures limit { KeepsLimit held.old held.new (with_room 13 (fill_of held.old)) }
    ensures step { IsStep (D.view disk.old) (D.view disk.new) held.old held.new result }
{
    make_room(disk, held, OPERATION_BYTES + 1)?;
    Ok(push_from(held, tid, 0, region, 0))
}

/// Writes the record that is full, and pushes what is left of a region that was cut.
fn push_rest<D: Disk>(
    disk: &mut D,
    held: &mut Held,
    tid: u32,
    region: &[u8],
    from: usize,
) -> Result<(), LogFault>
    requires up { held.old.down ≡ None }
    requires full { length held.old.growing.packer.body ≡ MAX_BODY_BYTES }
    requires within { (0 < from) × (from < length region.now) }
    requires most { length region.now ≤ MOST_REGION_BYTES }
    requires space { HasSpaceFor held.old (one_full (length region.now - from)) }
    ensures runs { (phase : Phase) → StepRuns (D.view disk.old) held.old phase (D.view disk.new) held.new }
    ensures kept { OnOk result ((count : ℕ) (regions : List (List ℕ)) → StepKeeps (D.view disk.old) held.old
        (AtPart tid count regions (take from region.now)) (D.view disk.new) held.new (AtRegion tid count (regions ++ region.now ∷ []))) }
    ensures fills { OnOk result (Fills held.old held.new (one_full (length region.now - from))) }
    ensures limit { KeepsLimit held.old held.new (one_full (length region.now - from)) }
    ensures step { IsStep (D.view disk.old) (D.view disk.new) held.old held.new result }
{
    make_room(disk, held, OPERATION_BYTES + 1)?;
    push_from(held, tid, 0, region, from);
    Ok(())
}

/// Pushes a region, and goes on with it in the next record where it is cut.
pub(crate) fn push_region<D: Disk>(
    disk: &mut D,
    held: &mut Held,
    tid: u32,
    region: &[u8],
) -> Result<(), LogFault>
    requires up { held.old.down ≡ None }
    requires some { 0 < length region.now }
    requires most { length region.now ≤ MOST_REGION_BYTES }
    requires space { HasSpaceFor held.old (filled_region (length region.now) (fill_of held.old)) }
    ensures runs { (count : ℕ) (regions : List (List ℕ))
        → StepRuns (D.view disk.old) held.old (AtRegion tid count regions) (D.view disk.new) held.new }
    ensures kept { OnOk result ((count : ℕ) (regions : List (List ℕ)) → StepKeeps (D.view disk.old) held.old (AtRegion tid count regions)
        (D.view disk.new) held.new (AtRegion tid count (regions ++ region.now ∷ []))) }
    ensures fills { OnOk result (Fills held.old held.new (filled_region (length region.now) (fill_of held.old))) }
    ensures limit { KeepsLimit held.old held.new (filled_region (length region.now) (fill_of held.old)) }
    ensures step { IsStep (D.view disk.old) (D.view disk.new) held.old held.new result }
{
    let stop = push_front(disk, held, tid, region)?;
    if stop < region.len() {
        push_rest(disk, held, tid, region, stop)
    } else {
        Ok(())
    }
}

/// Pushes the operation that ends a transaction.
pub(crate) fn push_commit<D: Disk>(disk: &mut D, held: &mut Held, tid: u32) -> Result<(), LogFault>
    requires up { held.old.down ≡ None }
    requires space { HasSpaceFor held.old (filled_whole 0 (fill_of held.old)) }
    ensures runs { (phase : Phase) → StepRuns (D.view disk.old) held.old phase (D.view disk.new) held.new }
    ensures kept { OnOk result (StepCommits (D.view disk.old) held.old tid (D.view disk.new) held.new) }
    ensures fills { OnOk result (Fills held.old held.new (filled_whole 0 (fill_of held.old))) }
    ensures some { OnOk result (0 < length held.new.growing.packer.body) }
    ensures limit { KeepsLimit held.old held.new (filled_whole 0 (fill_of held.old)) }
    ensures step { IsStep (D.view disk.old) (D.view disk.new) held.old held.new result }
{
    make_room(disk, held, OPERATION_BYTES)?;
    push_from(held, tid, COMMIT, &[], 0);
    Ok(())
}
