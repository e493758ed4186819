//! What is so of each image, whoever reads it. The calls do nothing.
ghost use Rattle.xr_scan.specs.CleanLaws.{CleanHoldsItsBlocks};
ghost use Rattle.xr_scan.specs.FalseRecordLaws.{DoneIsSound, OffLogIsSound, RestIsSound, UndoneIsSound};
ghost use Rattle.xr_scan.specs.FreshStateLaws.{FreshHoldsItsBlocks, FreshIsLive};
ghost use Rattle.xr_scan.specs.LoggedLaws.{
  IsOneLogging,
  LiveIsPlaced,
  LiveLogsItems,
  LoggedAreGood,
  PendingRise,
};
ghost use Rattle.xr_scan.specs.NumberedLaws.{NextIsAbove};
ghost use Rattle.xr_scan.specs.RefusalLaws.{IsOneRefusal, LiveIsTaken};
ghost use Rattle.xr_scan.specs.ReplayLaws.{LoggedIsWhole, ReplayGoesOn, UnloggedStays};
ghost use Rattle.xr_scan.specs.ScanLaws.{IsOneScanRefusal};
ghost use Rattle.xr_scan.specs.ScannedLaws.{ScannedHasFew, ScannedHolds, TooManyAreHeld};
ghost use Rattle.xr_scan.specs.StateLaws.{IsOneState, SameIsHeld};

/// An image holds at most one state, whatever is said of other blocks.
pub fn images_hold_one_state()
    ensures one { IsOneState }
    ensures same { SameIsHeld }
{}

/// The entries of a live stream log some items, and no others. Each is right by itself and after those before it, and
/// the works that are pending stand in the order of their ids, each below the next id.
pub fn live_streams_log_items()
    ensures some { LiveLogsItems }
    ensures one { IsOneLogging }
    ensures good { LoggedAreGood }
    ensures rise { PendingRise }
    ensures next { NextIsAbove }
{}

/// What is logged after other items is laid over what those make of a block. A block that isn't logged stays as it is, and one
/// that is doesn't depend on what stood there.
pub fn replays_go_on()
    ensures on { ReplayGoesOn }
    ensures stays { UnloggedStays }
    ensures whole { LoggedIsWhole }
{}

/// The records of a live stream lie whole in the log.
pub fn live_records_are_placed()
    ensures { LiveIsPlaced }
{}

/// An image with a live stream is not refused, and any other is refused in one way at most. So is its scan.
pub fn refusals_are_exact()
    ensures taken { LiveIsTaken }
    ensures one { IsOneRefusal }
    ensures scan { IsOneScanRefusal }
{}

/// The live stream of a fresh image is one unmount record. So the image holds its own blocks, and nothing is pending.
pub fn fresh_images_hold_their_blocks()
    ensures live { FreshIsLive }
    ensures holds { FreshHoldsItsBlocks }
{}

/// An image whose newest record is an unmount holds its own blocks, and nothing is pending.
pub fn clean_images_hold_their_blocks()
    ensures { CleanHoldsItsBlocks }
{}

/// What a scan found of an image is the state that it holds, with no more pending works than a log has slots for. Where more
/// are pending, the state that the image holds has them.
pub fn scans_tell_states()
    ensures holds { ScannedHolds }
    ensures few { ScannedHasFew }
    ensures many { TooManyAreHeld }
{}

/// The premise on torn records holds of a disk at rest, of one write that was wholly done or not done at all, and where no
/// write was in flight to the log.
pub fn whole_writes_make_no_false_record()
    ensures rest { RestIsSound }
    ensures done { DoneIsSound }
    ensures undone { UndoneIsSound }
    ensures off { OffLogIsSound }
{}
