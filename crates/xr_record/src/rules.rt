//! The rules that each operation is tested by.
ghost use Rattle.std.specs.Prelude.{◌≡◌, ◌<◌, ◌≤◌, ◌∷◌, ℕ, List, IsNone, length};
ghost use Rattle.xr_record.specs.ReaderFields.{front_of, region_items, phase_at, HasCountBytes, IsHeaderSort};
ghost use Rattle.xr_record.specs.Operations.{sort_of};
ghost use Rattle.xr_base.specs.Fields.{AreBytes};
ghost use Rattle.xr_record.specs.Rules.{body_fault, is_client, is_header_body, is_len, is_region_len, is_tid, may_come};
ghost use Rattle.xr_record.specs.Stream.{are_items, item_len, items_from};

use crate::layout::{
    COMMIT, CONTINUE, LAST_FLAGS, LOG_CLIENT, MIDDLE_FLAGS, MOST_REGION_BYTES, START,
    TRANSACTION_CLIENT, TRANSACTION_HEADER_BYTES, TRANSACTION_MAGIC, TRANSACTION_TID_PLACE,
    TRANSACTION_TYPE, TRANSACTION_TYPE_PLACE, UNMOUNT, UNMOUNT_BODY, UNMOUNT_BODY_BYTES,
};
use crate::operation::{Fields, Sort};
use byteorder::{ByteOrder, LittleEndian};

/// Which rule an operation breaks first.
#[derive(Clone, Copy, Debug, PartialEq, Eq)]
pub enum OpKind {
    /// It is from no known client, or from the log and no unmount.
    Client,
    /// Its flags may not stand here, or a byte of its header that has to be zero isn't.
    Flags,
    /// It isn't of the open transaction, or an unmount with a number.
    Tid,
    /// It has another length than its sort has, or a region has no bytes or too many.
    Length,
    /// A field of a transaction's header, or a byte of an unmount, is wrong.
    Header,
    /// The regions don't part into items, or there is another number of them than the header says.
    Count,
}

/// What is open after the last whole operation.
#[derive(Clone, Copy, Debug, PartialEq, Eq)]
pub enum Stage {
    Between,
    Begun { tid: u32 },
    Inside { tid: u32, count: u32 },
    /// The first parts of a region have so many bytes.
    Cut { tid: u32, count: u32, front: usize },
}

fn is_client(f: &Fields) -> bool
    ensures { result ≡ is_client f.now }
{
    f.client == TRANSACTION_CLIENT || (f.client == LOG_CLIENT && f.flags / UNMOUNT % 2 == 1)
}

fn sort_of(client: u8, flags: u8) -> Option<Sort>
    ensures { result ≡ sort_of client flags }
{
    if client == LOG_CLIENT {
        return if flags == UNMOUNT {
            Some(Sort::Unmount)
        } else {
            None
        };
    }
    match flags {
        START => Some(Sort::Start),
        0 => Some(Sort::Whole),
        CONTINUE => Some(Sort::First),
        MIDDLE_FLAGS => Some(Sort::Middle),
        LAST_FLAGS => Some(Sort::Last),
        COMMIT => Some(Sort::Commit),
        _ => None,
    }
}

/// Whether an operation of this sort may come.
fn may_come(stage: Stage, sort: Sort) -> bool
    ensures { (regions : List (List ℕ)) (body : List ℕ) → result ≡ may_come (phase_at stage regions body) sort }
{
    match (stage, sort) {
        (Stage::Between, Sort::Start | Sort::Unmount) => true,
        (Stage::Begun { .. }, Sort::Whole) => true,
        (Stage::Inside { .. }, Sort::Whole | Sort::First | Sort::Commit) => true,
        (Stage::Cut { .. }, Sort::Middle | Sort::Last) => true,
        _ => false,
    }
}

/// Whether an operation of this sort may have this number.
fn is_tid(stage: Stage, sort: Sort, tid: u32) -> bool
    ensures { (regions : List (List ℕ)) (body : List ℕ) → result ≡ is_tid (phase_at stage regions body) sort tid }
{
    match stage {
        Stage::Between => match sort {
            Sort::Unmount => tid == 0,
            _ => true,
        },
        Stage::Begun { tid: own } => tid == own,
        Stage::Inside { tid: own, .. } => tid == own,
        Stage::Cut { tid: own, .. } => tid == own,
    }
}

/// Whether a region of which so many bytes came before may have so many more.
fn is_region_len(before: usize, len: u32) -> bool
    ensures { result ≡ is_region_len before len }
{
    len > 0 && len as usize <= MOST_REGION_BYTES.saturating_sub(before)
}

/// Whether an operation of this sort may have a body of this length.
fn is_len(stage: Stage, sort: Sort, len: u32) -> bool
    ensures { (regions : List (List ℕ)) (body : List ℕ) → front_of stage ≤ length body
        → result ≡ is_len (phase_at stage regions body) sort len }
{
    match (stage, sort) {
        (Stage::Begun { .. }, _) => len == TRANSACTION_HEADER_BYTES as u32,
        (Stage::Cut { front, .. }, _) => is_region_len(front, len),
        (_, Sort::Start | Sort::Commit) => len == 0,
        (_, Sort::Unmount) => len == UNMOUNT_BODY_BYTES as u32,
        _ => is_region_len(0, len),
    }
}

/// The sort of an operation by its header, or the first rule that the header breaks.
pub fn sort_in(stage: Stage, f: &Fields) -> Result<Sort, OpKind>
    ensures { (regions : List (List ℕ)) (body : List ℕ) → front_of stage ≤ length body
        → IsHeaderSort (phase_at stage regions body) f.now result }
{
    if !is_client(f) {
        return Err(OpKind::Client);
    }
    let sort = match sort_of(f.client, f.flags) {
        Some(sort) => sort,
        None => return Err(OpKind::Flags),
    };
    if !may_come(stage, sort) {
        return Err(OpKind::Flags);
    }
    if f.zeros != 0 {
        return Err(OpKind::Flags);
    }
    if !is_tid(stage, sort, f.tid) {
        return Err(OpKind::Tid);
    }
    if !is_len(stage, sort, f.len) {
        return Err(OpKind::Length);
    }
    Ok(sort)
}

fn is_header_body(tid: u32, body: &[u8]) -> bool
    ensures { result ≡ is_header_body tid body.now }
{
    body.len() == TRANSACTION_HEADER_BYTES
        && LittleEndian::read_u32(body) == TRANSACTION_MAGIC
        && LittleEndian::read_u32(&body[TRANSACTION_TYPE_PLACE..]) == TRANSACTION_TYPE
        && LittleEndian::read_u32(&body[TRANSACTION_TID_PLACE..]) == tid
}

/// How many regions the item takes whose first region this is.
fn item_len(region: &[u8]) -> usize
    ensures len { result ≡ item_len region.now }
    ensures some { 0 < result }
{
    if region.len() < 4 {
        return 1;
    }
    usize::from(LittleEndian::read_u16(&region[2..])).max(1)
}

/// How many regions are left of the item in which this one stands.
fn left_after(left: usize, region: &[u8]) -> usize
    ensures { (regions : List (List ℕ)) → items_from left (region.now ∷ regions) ≡ items_from result regions }
{
    if left == 0 {
        item_len(region) - 1
    } else {
        left - 1
    }
}

/// Whether the regions part into items.
fn are_items(regions: &[Vec<u8>]) -> bool
    ensures { result ≡ are_items (region_items regions.now) }
{
    let mut left = 0;
    for region in regions {
        left = left_after(left, region);
    }
    left == 0
}

/// The first rule that the body of an operation breaks whose header breaks none.
pub fn body_fault(stage: Stage, regions: &[Vec<u8>], sort: Sort, body: &[u8]) -> Option<OpKind>
    ensures fault { (front : List ℕ) → result ≡ body_fault (phase_at stage (region_items regions.now) front) sort body.now }
    ensures room { IsNone result → HasCountBytes stage (length body.now) }
    ensures small { AreBytes body.now }
{
    match (stage, sort) {
        (Stage::Begun { tid }, _) if !is_header_body(tid, body) => Some(OpKind::Header),
        (Stage::Inside { count, .. }, Sort::Commit)
            if count as usize != regions.len() || !are_items(regions) => { Some(OpKind::Count) }
        (Stage::Between, Sort::Unmount) if body != UNMOUNT_BODY.as_slice() => Some(OpKind::Header),
        _ => None,
    }
}
