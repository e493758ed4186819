//! What a scan of an image finds: where its live stream ends, the pending works, and the blocks as the stream leaves them.
ghost use Rattle.std.specs.Prelude.{◌≡◌, ◌≤◌, vec_len};
ghost use Rattle.std.specs.Coded.{Coded-set};
ghost use Rattle.xr_scan.specs.LoggedLaws.{IsPlacedHead};
ghost use Rattle.xr_scan.specs.Numbered.{AreNumbered};
ghost use Rattle.xr_scan.specs.NumberedLaws.{AreNumbered-prop};
ghost use Rattle.xr_scan.specs.declared.layout.TheConstants.{MOST_PENDING, STATE_BLOCKS, STATE_BYTES};

use uuid::Uuid;
use xr_commit::Pending;
use xr_record::{Head, Lsn};

/// What a scan of an image found.
#[derive(Debug, Drop)]
pub struct Scanned {
    /// The image's identifier.
    pub uuid: Uuid,
    /// The place of the newest record.
    pub head: Lsn,
    /// Whether the newest record is an unmount.
    pub clean: bool,
    /// One more than the greatest id that an item of the live stream names, or 1.
    pub next: u64,
    /// The pending intents in rising id, at most 128.
    pub pending: Vec<Pending>,
    /// The newest record's header.
    pub last: Head,
    /// Whether the live stream ends within a transaction.
    pub ends_open: bool,
    /// The blocks of the files and then those of the groups, without data blocks, as the live stream leaves them.
    pub blocks: Vec<u8>,
    /// For each of these blocks whether the live stream logs it, so that what stands at home may be older, or torn.
    pub dirty: Vec<bool>,
    ghost whole: { vec_len blocks ≡ STATE_BYTES },
    ghost each: { vec_len dirty ≡ STATE_BLOCKS },
    ghost few: { vec_len pending ≤ MOST_PENDING },
    ghost newest: { head ≡ last.lsn } by { Coded-set head-code head last.lsn },
    ghost placed: { IsPlacedHead last },
    ghost numbered: { AreNumbered next pending.items } by { AreNumbered-prop next pending.items },
}
