//! How far a log goes before it counts as worn, and how much room it keeps, each number named once for code and specs.
ghost use Rattle.xr_log.specs.Layout.{HasRoomLayout};

/// From this cycle on a log counts as worn.
pub const WORN_CYCLE: u32 = 3_999_000_000;

/// From this next id on a log counts as worn.
pub const WORN_ID: u64 = 1 << 62;

/// A call passes the log's end at most so often.
pub const CYCLES_A_CALL: u32 = 1;

/// The most new ids that a call gives.
pub const IDS_A_CALL: u64 = 512;

/// So many sectors after the newest record are free for a commit: the longest transaction, the record that grew before it,
/// and the reserve.
pub const COMMIT_SECTORS: u32 = 1280;

/// So many are free while a record grows: those of the longest record, as many less one that may stay unused at the log's
/// end, and the reserve.
pub const GROWING_SECTORS: u32 = 219;

/// Each number above is this one.
pub fn room_is_fixed()
    ensures { HasRoomLayout }
{}
