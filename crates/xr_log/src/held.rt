//! What a log holds in memory beside its disk.
ghost use Rattle.std.specs.Prelude.{◌≡◌, ◌≤◌, vec_capacity, vec_len};
ghost use Rattle.xr_commit.specs.declared.layout.TheConstants.{MOST_RECORD_BYTES};
ghost use Rattle.xr_scan.specs.LoggedLaws.{IsPlacedHead};
ghost use Rattle.xr_scan.specs.Numbered.{AreNumbered};
ghost use Rattle.xr_scan.specs.NumberedLaws.{AreNumbered-prop};
ghost use Rattle.xr_scan.specs.declared.layout.TheConstants.{MOST_PENDING, STATE_BLOCKS, STATE_BYTES};
ghost use Rattle.xr_log.specs.Positions.{HasRoomToGrow};
ghost use Rattle.xr_log.specs.Slots.{AreApartSlots, AreApartSlots-prop, pending_in, slots_in};

use uuid::Uuid;
use xr_disk::Disk;
use xr_items::Work;
use xr_record::{Head, Packer};

/// A pending work, its id, and the slot by which callers name it.
#[derive(Clone, Copy, Debug, PartialEq, Eq)]
pub(crate) struct Slotted {
    pub(crate) id: u64,
    pub(crate) slot: u8,
    pub(crate) work: Work,
}

/// The newest record's header, and the record that grows after it.
#[derive(Drop)]
pub struct Growing {
    pub(crate) last: Head,
    /// Whether the next record is its own tail, since nothing that older records log is needed any more.
    pub(crate) anew: bool,
    pub(crate) packer: Packer,
    /// Where a record's sectors are laid before they are written.
    pub(crate) sectors: Vec<u8>,
    ghost placed: { IsPlacedHead last },
    ghost room: { HasRoomToGrow last packer },
    ghost long: { vec_len sectors ≡ MOST_RECORD_BYTES },
}

/// What a log holds in memory: the committed blocks and pending works, and the record that grows.
#[derive(Drop)]
pub struct Held {
    pub(crate) uuid: Uuid,
    /// The blocks of the files and then those of the groups, without data blocks, as committed transactions leave them.
    pub(crate) blocks: Vec<u8>,
    /// For each of these blocks whether it is logged, so that what stands at home may be older, or torn.
    pub(crate) dirty: Vec<bool>,
    /// The pending works in rising id.
    pub(crate) table: Vec<Slotted>,
    /// The next id of an intent.
    pub(crate) next: u64,
    /// The number of the last transaction, modulo 2^32. The first one of a session is 1.
    pub(crate) tid: u32,
    /// Whether the live stream was found to end within a transaction.
    pub(crate) ends_open: bool,
    pub(crate) growing: Growing,
    /// How often the disk had failed when the log went down.
    pub(crate) down: Option<u64>,
    ghost whole: { vec_len blocks ≡ STATE_BYTES },
    ghost each: { vec_len dirty ≡ STATE_BLOCKS },
    ghost few: { vec_len table ≤ MOST_PENDING },
    ghost fits: { MOST_PENDING ≤ vec_capacity table },
    ghost slots: { AreApartSlots (slots_in table.items) } by { AreApartSlots-prop (slots_in table.items) },
    ghost numbered: { AreNumbered next (pending_in table.items) } by { AreNumbered-prop next (pending_in table.items) },
}

/// The log over a disk. `close` and `leave` give the disk back.
pub struct Log<D: Disk> {
    pub(crate) disk: D,
    pub(crate) held: Held,
}
