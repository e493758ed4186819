//! The record in which a region of the stream begins.
ghost use Rattle.std.specs.Prelude.{◌≡◌, ◌≤◌, ◌<◌, ◌+◌, ◌^◌, ℕ, false, List, Some, length, if◌then◌else◌};
ghost use Rattle.xr_commit.specs.RegionHomes.{begins_region, home_of_region, is_start, regions_begun, started_after};
ghost use Rattle.xr_commit.specs.LogRecords.{AreHeadersOf, OfRecords};
ghost use Rattle.xr_commit.specs.Operations.{headers_of};
ghost use Rattle.xr_record.specs.declared.layout.TheConstants.{OPERATION_BYTES};
ghost use Rattle.xr_base.specs.declared.layout.TheConstants.{MAX_BODY_BYTES};
ghost use Rattle.xr_record.specs.Operations.{fields};

use crate::bodies::body_at;
use crate::fault::log_block_of;
use crate::layout::{LOG_BYTES, MOST_RECORD_BYTES};
use crate::operations::operation_len;
use xr_record::Head;
use xr_record::layout::{CONTINUE, OPERATION_BYTES, START, TRANSACTION_CLIENT};

/// The regions that begin in a body, and whether its last operation is a START, which a transaction's header follows.
#[derive(Clone, Copy, Debug, PartialEq, Eq)]
struct Begun {
    regions: usize,
    started: bool,
}

/// Counts one operation more, by its header.
fn begun_on(begun: Begun, header: &[u8]) -> Begun
    requires header { OPERATION_BYTES ≤ length header.now }
    requires few { begun.regions < 2 ^ 60 }
    ensures regions { result.regions ≡ begun.regions + (if begins_region begun.started (fields header.now) then 1 else 0) }
    ensures started { result.started ≡ is_start (fields header.now) }
{
    let ours = header[8] == TRANSACTION_CLIENT;
    let begins = ours && (header[9] == 0 || header[9] == CONTINUE) && !begun.started;
    Begun {
        regions: if begins {
            begun.regions + 1
        } else {
            begun.regions
        },
        started: ours && header[9] == START,
    }
}

/// Counts the regions that begin in a body, where `started` says that a START stands right before it.
fn begun_in(body: &[u8], started: bool) -> Begun
    requires { length body.now ≤ MAX_BODY_BYTES }
    ensures regions { result.regions ≡ regions_begun started (headers_of body.now) }
    ensures started { result.started ≡ started_after started (headers_of body.now) }
{
    let mut begun = Begun {
        regions: 0,
        started,
    };
    let mut at = 0;
    while at + OPERATION_BYTES <= body.len() {
        let header = &body[at..];
        begun = begun_on(begun, header);
        at += operation_len(header);
    }
    begun
}

/// The block of the record in which a region of the stream begins, which has a record.
pub fn block_of_region(log: &[u8], heads: &[Head], region: u128, scratch: &mut [u8]) -> u32
    requires log { length log.now ≡ LOG_BYTES }
    requires scratch { length scratch.old ≡ MOST_RECORD_BYTES }
    requires records { AreHeadersOf log.now heads.now }
    requires begins { OfRecords log.now heads.now (λ records. (block : ℕ) × (home_of_region false records region ≡ Some block)) }
    ensures { OfRecords log.now heads.now (λ records. home_of_region false records region ≡ Some result) }
{
    let mut left = region;
    let mut started = false;
    for head in heads {
        let begun = begun_in(body_at(log, head, scratch), started);
        if left < begun.regions as u128 {
            return log_block_of(head.lsn.sector);
        }
        left -= begun.regions as u128;
        started = begun.started;
    }
    unreachable!()
}
