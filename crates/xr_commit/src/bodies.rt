//! What the live records say: their unmounts, and the entries of the stream of their bodies.
ghost use Rattle.std.specs.Prelude.{◌≡◌, ◌≤◌, ℕ, List, All, IfOk, IfErr, OnOk, MatchResult, length};
ghost use Rattle.xr_base.specs.Image.{part};
ghost use Rattle.xr_base.specs.declared.geometry.TheConstants.{SECTOR_BYTES};
ghost use Rattle.xr_commit.specs.Entries.{HasEntries};
ghost use Rattle.xr_commit.specs.LogRecords.{LogRecord, OfRecords, home_of, AreHeadersOf};
ghost use Rattle.xr_commit.specs.Operations.{KeepsUnmounts};
ghost use Rattle.xr_commit.specs.Refusals.{BreaksOperations, BreaksUnmounts, OrNoMemory};
ghost use Rattle.xr_commit.specs.ReadBodies.{IsFirstWrong, ReadsRecord, IsInLog};
ghost use Rattle.xr_commit.specs.declared.fault.ScanFault.TheVariants.{Place};
ghost use Rattle.xr_record.specs.declared.head.Head.{Head};
ghost use Rattle.xr_record.specs.Reading.{is_open};
ghost use Rattle.xr_record.specs.Rules.{phase_of};
ghost use Rattle.xr_base.specs.declared.layout.TheConstants.{MAX_BODY_BYTES};

use crate::fault::{ScanFault, log_block_of};
use crate::layout::{LOG_BYTES, MOST_RECORD_BYTES};
use crate::opening::open_at;
use crate::operations::sum_up;
use std::alloc::Global;
use xr_base::geometry::SECTOR_BYTES;
use xr_record::{Entry, FeedFault, Head, Reader};

/// Puts the body of a record that stands in the log into `scratch`, and gives it.
pub fn body_at<'a>(log: &[u8], head: &Head, scratch: &'a mut [u8]) -> &'a [u8]
    requires log { length log.now ≡ LOG_BYTES }
    requires scratch { length scratch.old ≡ MOST_RECORD_BYTES }
    requires stands { (r : LogRecord) × IsInLog log.now head.now r }
    ensures { (r : LogRecord) → IsInLog log.now head.now r → result.now ≡ r.body }
{
    match open_at(log, head.lsn.sector, scratch) {
        Ok(_) => &scratch[SECTOR_BYTES..SECTOR_BYTES + head.len as usize],
        Err(_) => unreachable!(),
    }
}

/// Checks that a record with an unmount has no other operation, and is its own tail.
fn check_unmount(log: &[u8], head: &Head, scratch: &mut [u8]) -> Result<(), ScanFault>
    requires log { length log.now ≡ LOG_BYTES }
    requires scratch { length scratch.old ≡ MOST_RECORD_BYTES }
    requires stands { (r : LogRecord) × IsInLog log.now head.now r }
    ensures { (r : LogRecord) → IsInLog log.now head.now r
        → MatchResult result (λ _. KeepsUnmounts r) (λ fault. (KeepsUnmounts r → ⊥) × (fault ≡ Place (home_of head.now))) }
{
    let summary = sum_up(body_at(log, head, scratch));
    if summary.unmounts && (summary.operations != 1 || head.tail != head.lsn) {
        return Err(ScanFault::Place {
            block: log_block_of(head.lsn.sector),
        });
    }
    Ok(())
}

/// Checks the unmounts of all live records.
pub fn check_unmounts(log: &[u8], heads: &[Head], scratch: &mut [u8]) -> Result<(), ScanFault>
    requires log { length log.now ≡ LOG_BYTES }
    requires scratch { length scratch.old ≡ MOST_RECORD_BYTES }
    requires records { AreHeadersOf log.now heads.now }
    ensures { OfRecords log.now heads.now (λ records. MatchResult result (λ _. All KeepsUnmounts records) (BreaksUnmounts records)) }
{
    for head in heads {
        check_unmount(log, head, scratch)?;
    }
    Ok(())
}

/// What the bodies of live records say.
#[derive(Debug, Drop)]
pub struct Bodies {
    pub entries: Vec<Entry>,
    /// Whether they end within a transaction.
    pub ends_open: bool,
}

/// Reads one record's operations, and adds the entries that they end.
fn read_record(
    alloc: Global,
    head: &Head,
    body: &[u8],
    reader: &mut Reader,
    entries: &mut Vec<Entry>,
) -> Result<(), ScanFault>
    requires { length body.now ≤ MAX_BODY_BYTES }
    ensures reads { OnOk result ((r : LogRecord) → r.head ≡ head.now → r.body ≡ body.now
        → ReadsRecord r reader.old entries.old.items reader.new entries.new.items) }
    ensures wrong { IfErr result (OrNoMemory (IsFirstWrong head.now body.now reader.old entries.old.items)) }
{
    let block = log_block_of(head.lsn.sector);
    let summary = sum_up(body);
    if summary.bytes != body.len() || summary.operations != head.ops {
        return Err(ScanFault::Operation { block });
    }
    match reader.feed(alloc, body) {
        Ok(mut more) => {
            entries.append(&mut more)?;
            Ok(())
        }
        Err(FeedFault::Op { .. }) => Err(ScanFault::Operation { block }),
        Err(FeedFault::NoMemory) => Err(ScanFault::NoMemory),
    }
}

/// The entries of the stream of all live records' bodies, and whether it ends within a transaction.
pub fn read_entries(
    alloc: Global,
    log: &[u8],
    heads: &[Head],
    scratch: &mut [u8],
) -> Result<Bodies, ScanFault>
    requires log { length log.now ≡ LOG_BYTES }
    requires scratch { length scratch.old ≡ MOST_RECORD_BYTES }
    requires records { AreHeadersOf log.now heads.now }
    ensures entries { IfOk result (λ bodies. OfRecords log.now heads.now (λ records. HasEntries records bodies.entries.items)) }
    ensures ends { IfOk result (λ bodies. OfRecords log.now heads.now (λ records. (said : HasEntries records bodies.entries.items)
        → bodies.ends_open ≡ is_open (phase_of said.o))) }
    ensures broken { IfErr result (OrNoMemory (λ fault. OfRecords log.now heads.now (λ records. BreaksOperations records fault))) }
{
    let mut reader = Reader::new(alloc)?;
    let mut entries = Vec::new(alloc);
    for head in heads {
        let body = body_at(log, head, scratch);
        read_record(alloc, head, body, &mut reader, &mut entries)?;
    }
    let ends_open = reader.ends_open();
    Ok(Bodies { entries, ends_open })
}
