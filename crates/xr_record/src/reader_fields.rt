//! What a reader keeps between pieces, and what an operation makes of it.
ghost use Rattle.std.specs.Prelude.{◌≡◌, ◌<◌, ◌≤◌, ◌++◌, ◌∷◌, [], ℕ, IfOk, IfErr, OnOk, length, take};
ghost use Rattle.xr_record.specs.declared.rules.Stage.TheVariants.{Between, Cut, Inside};
ghost use Rattle.xr_record.specs.ReaderFields.{Applies, Completes, IsFault, IsGrowing, AwaitsMore, Settles, front_of, reader_state, region_items};
ghost use Rattle.xr_record.specs.ReaderFields.{HasCountBytes, TakesBytes, IsWholeOperation};

use crate::entry::{Entry, Regions};
use crate::fault::FeedFault;
use crate::layout::{OPERATION_BYTES, TRANSACTION_COUNT_PLACE};
use crate::operation::{Fields, Sort, fields_in};
use crate::rules::{Stage, body_fault, sort_in};
use byteorder::{ByteOrder, LittleEndian};
use std::alloc::Global;
use std::mem;
use xr_base::NoMemory;

/// What is open, and the bytes of the operation that isn't whole.
#[derive(Debug, Drop)]
pub struct ReaderFields {
    pub stage: Stage,
    /// The whole regions of the open transaction.
    pub regions: Vec<Vec<u8>>,
    /// The bytes of the operation's header.
    pub header: Vec<u8>,
    /// The first parts of a region that is cut, and then the bytes of the operation's body.
    pub body: Vec<u8>,
    /// Where the operation begins in the stream.
    pub place: u64,
}

/// How many bytes of the open region stand in operations that are whole.
fn front_of(stage: Stage) -> usize
    ensures { result ≡ front_of stage }
{
    match stage {
        Stage::Cut { front, .. } => front,
        _ => 0,
    }
}

/// Adds bytes of the piece to those of the operation, none past its end, and says how many.
pub fn grow(reader: &mut ReaderFields, piece: &[u8]) -> Result<usize, NoMemory>
    requires awaits { AwaitsMore reader.old }
    requires some { 0 < length piece.now }
    ensures grown { IfOk result (λ n. TakesBytes reader.old reader.new (take n piece.now)) }
    ensures count { IfOk result (λ n. (0 < n) × (n ≤ length piece.now)) }
{
    if reader.header.len() < OPERATION_BYTES {
        let n = piece.len().min(OPERATION_BYTES - reader.header.len());
        reader.header.extend_from_slice(&piece[..n])?;
        return Ok(n);
    }
    let len = fields_in(&reader.header).len as usize;
    let had = reader.body.len() - front_of(reader.stage);
    let n = piece.len().min(len - had);
    reader.body.extend_from_slice(&piece[..n])?;
    Ok(n)
}

/// Ends the region that is open.
fn end_region(regions: &mut Vec<Vec<u8>>, body: &mut Vec<u8>, alloc: Global) -> Result<(), NoMemory>
    ensures regions { OnOk result (region_items regions.new.items ≡ region_items regions.old.items ++ body.old.items ∷ []) }
    ensures body { OnOk result (body.new.items ≡ []) }
{
    let region = mem::replace(body, Vec::new(alloc));
    regions.push(region)?;
    Ok(())
}

/// What the operation makes of nothing that is open.
fn apply_between(reader: &mut ReaderFields, sort: Sort, tid: u32) -> Option<Entry>
    requires { reader.old.stage ≡ Between }
    ensures { Applies reader.old reader.new sort tid result }
{
    reader.body.clear();
    match sort {
        Sort::Unmount => Some(Entry::Unmount),
        _ => {
            reader.stage = Stage::Begun { tid };
            None
        }
    }
}

/// What the operation makes of a transaction whose regions are whole.
fn apply_inside(
    reader: &mut ReaderFields,
    alloc: Global,
    sort: Sort,
    tid: u32,
    count: u32,
) -> Result<Option<Entry>, NoMemory>
    requires { reader.old.stage ≡ Inside tid count }
    ensures { IfOk result (Applies reader.old reader.new sort tid) }
{
    match sort {
        Sort::Commit => {
            reader.body.clear();
            reader.stage = Stage::Between;
            let regions = mem::replace(&mut reader.regions, Vec::new(alloc));
            Ok(Some(Entry::Trans {
                tid,
                regions: Regions::of(regions),
            }))
        }
        Sort::First => {
            reader.stage = Stage::Cut {
                tid,
                count,
                front: reader.body.len(),
            };
            Ok(None)
        }
        _ => {
            end_region(&mut reader.regions, &mut reader.body, alloc)?;
            Ok(None)
        }
    }
}

/// What the operation makes of a region that is cut.
fn apply_cut(
    reader: &mut ReaderFields,
    alloc: Global,
    sort: Sort,
    tid: u32,
    count: u32,
) -> Result<Option<Entry>, NoMemory>
    requires { (front : ℕ) × (reader.old.stage ≡ Cut tid count front) × (front ≤ length reader.old.body.items) }
    ensures { IfOk result (Applies reader.old reader.new sort tid) }
{
    match sort {
        Sort::Last => {
            end_region(&mut reader.regions, &mut reader.body, alloc)?;
            reader.stage = Stage::Inside { tid, count };
            Ok(None)
        }
        _ => {
            reader.stage = Stage::Cut {
                tid,
                count,
                front: reader.body.len(),
            };
            Ok(None)
        }
    }
}

/// What the operation makes of what is open, but for its header.
fn apply(
    reader: &mut ReaderFields,
    alloc: Global,
    sort: Sort,
    tid: u32,
) -> Result<Option<Entry>, NoMemory>
    requires front { front_of reader.old.stage ≤ length reader.old.body.items }
    requires count { HasCountBytes reader.old.stage (length reader.old.body.items) }
    ensures { IfOk result (Applies reader.old reader.new sort tid) }
{
    match reader.stage {
        Stage::Between => Ok(apply_between(reader, sort, tid)),
        Stage::Begun { tid } => {
            let count = LittleEndian::read_u32(&reader.body[TRANSACTION_COUNT_PLACE..]);
            reader.body.clear();
            reader.regions.clear();
            reader.stage = Stage::Inside { tid, count };
            Ok(None)
        }
        Stage::Inside { tid, count } => apply_inside(reader, alloc, sort, tid, count),
        Stage::Cut { tid, count, .. } => apply_cut(reader, alloc, sort, tid, count),
    }
}

/// Tests the body of an operation that is whole, and makes of what is open what it says.
fn complete(
    reader: &mut ReaderFields,
    alloc: Global,
    sort: Sort,
    fields: &Fields,
) -> Result<Option<Entry>, FeedFault>
    requires growing { IsGrowing reader.old }
    requires header { IsWholeOperation reader.old fields.now sort }
    ensures awaits { IfOk result (λ _. AwaitsMore reader.new) }
    ensures completes { IfOk result (Completes (reader_state reader.old) (reader_state reader.new)) }
    ensures fault { IfErr result (IsFault (reader_state reader.old)) }
{
    let front = front_of(reader.stage);
    match body_fault(reader.stage, &reader.regions, sort, &reader.body[front..]) {
        Some(kind) => {
            return Err(FeedFault::Op {
                place: reader.place,
                kind,
            });
        }
        None => (),
    }
    let entry = apply(reader, alloc, sort, fields.tid)?;
    reader.header.clear();
    reader.place = reader
        .place
        .saturating_add(OPERATION_BYTES as u64)
        .saturating_add(u64::from(fields.len));
    Ok(entry)
}

/// Tests the operation as far as it has come, and completes it where it is whole.
pub fn settle(reader: &mut ReaderFields, alloc: Global) -> Result<Option<Entry>, FeedFault>
    requires { IsGrowing reader.old }
    ensures awaits { IfOk result (λ _. AwaitsMore reader.new) }
    ensures settles { IfOk result (Settles (reader_state reader.old) (reader_state reader.new)) }
    ensures fault { IfErr result (IsFault (reader_state reader.old)) }
{
    if reader.header.len() < OPERATION_BYTES {
        return Ok(None);
    }
    let fields = fields_in(&reader.header);
    let sort = match sort_in(reader.stage, &fields) {
        Ok(sort) => sort,
        Err(kind) => {
            return Err(FeedFault::Op {
                place: reader.place,
                kind,
            });
        }
    };
    if reader.body.len() < front_of(reader.stage) + fields.len as usize {
        return Ok(None);
    }
    complete(reader, alloc, sort, &fields)
}
