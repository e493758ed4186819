//! The calls of a log that tell, commit, force and leave.
ghost use Rattle.std.specs.Prelude.{◌≡◌, ◌↔◌, ℕ, IsTrue, Some};
ghost use Rattle.xr_log.specs.Calls.{MayCommit};
ghost use Rattle.xr_log.specs.CommitCalls.{IsCommitCall};
ghost use Rattle.xr_log.specs.Forces.{Forces, HasNothingPacked, Leaves};
ghost use Rattle.xr_log.specs.Held.{HasCommitRoom, cycle_of, disk_of, held_of, is_untouched, placings_of, worn_of};

use crate::committing::commit_held;
use crate::fault::LogFault;
use crate::forcing::force_held;
use crate::held::Log;
use crate::layout::{COMMIT_SECTORS, WORN_CYCLE, WORN_ID};
use crate::next_head::leaves_sectors;
use xr_disk::Disk;
use xr_items::{Placed, Trans};

impl<D: Disk> Log<D> {
    /// Some exactly where the log is worn: its cycle, or the first worn one where its ids are.
    pub fn worn(&self) -> Option<u32>
        ensures { result ≡ worn_of (cycle_of (held_of self.now)) (held_of self.now).next }
    {
        let cycle = self.cycle();
        if cycle >= WORN_CYCLE {
            Some(cycle)
        } else if self.held.next >= WORN_ID {
            Some(WORN_CYCLE)
        } else {
            None
        }
    }

    /// How often the disk had failed when the log went down.
    pub fn down(&self) -> Option<u64>
        ensures { result ≡ (held_of self.now).down }
    {
        self.held.down
    }

    /// The disk's moment.
    pub fn moment(&self) -> u64
        ensures { result ≡ (D.view (disk_of self.now)).moment }
    {
        self.disk.moment()
    }

    /// How often the disk has failed.
    pub fn faults(&self) -> u64
        ensures { result ≡ (D.view (disk_of self.now)).faults }
    {
        self.disk.faults()
    }

    /// The cycle of the newest record.
    pub fn cycle(&self) -> u32
        ensures { result ≡ cycle_of (held_of self.now) }
    {
        let growing = &self.held.growing;
        growing.last.lsn.cycle
    }

    /// Whether the log goes on from a clean image, with nothing committed or written since.
    pub fn untouched(&self) -> bool
        ensures { result ≡ is_untouched (held_of self.now) }
    {
        let growing = &self.held.growing;
        growing.anew && growing.packer.body().is_empty()
    }

    /// Whether a transaction may be committed: so many sectors are free that each fits, and the live stream ends between two.
    pub fn has_room(&self) -> bool
        ensures { IsTrue result ↔ HasCommitRoom (held_of self.now) }
    {
        let growing = &self.held.growing;
        !self.held.ends_open && leaves_sectors(&growing.last, COMMIT_SECTORS)
    }

    /// Commits a transaction, and gives the slots of its new works. It is on the disk with the next force. `Worn` where its
    /// records would need the cycle that none may have, or its works an id that none may have: then nothing has changed. After
    /// any other error nothing is committed, and the log is down.
    pub fn commit(&mut self, trans: &Trans) -> Result<Placed, LogFault>
        requires may { MayCommit (held_of self.old).uuid (placings_of (held_of self.old)) trans.now }
        requires room { HasCommitRoom (held_of self.old) }
        ensures commits { IsCommitCall (D.view (disk_of self.old)) (D.view (disk_of self.new)) (held_of self.old) (held_of self.new) trans.now result }
        ensures idle { (faults : ℕ) → (held_of self.old).down ≡ Some faults → disk_of self.new ≡ disk_of self.old }
    {
        commit_held(&mut self.disk, &mut self.held, trans)
    }

    /// Brings what was committed to the disk. `Worn` where a record would need the cycle that none may have: then nothing has
    /// changed. Where nothing was committed since the last force, no call of the disk is made.
    pub fn force(&mut self) -> Result<(), LogFault>
        ensures forces { Forces (D.view (disk_of self.old)) (D.view (disk_of self.new)) (held_of self.old) (held_of self.new) result }
        ensures nothing { HasNothingPacked (held_of self.old) → (held_of self.new ≡ held_of self.old) × (disk_of self.new ≡ disk_of self.old) }
        ensures idle { (faults : ℕ) → (held_of self.old).down ≡ Some faults → disk_of self.new ≡ disk_of self.old }
    {
        force_held(&mut self.disk, &mut self.held)
    }

    /// Forces, and gives the disk back. Pending works stay in the log.
    pub fn leave(self) -> (Result<(), LogFault>, D)
        ensures leaves { Leaves (D.view (disk_of self)) (D.view result.1) (held_of self) result.0 }
        ensures idle { (faults : ℕ) → (held_of self).down ≡ Some faults → result.1 ≡ disk_of self }
    {
        let Log { mut disk, mut held } = self;
        let left = force_held(&mut disk, &mut held);
        (left, disk)
    }
}
