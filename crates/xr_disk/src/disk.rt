//! A disk that may crash: what its calls answer, and what a crash at any moment may leave.
ghost use Rattle.std.specs.Prelude.{◌≡◌, ◌*◌, ◌≤◌, ℕ, Some, List, length, OnOk, OnErr};
ghost use Rattle.xr_base.specs.declared.geometry.TheConstants.{SECTOR_BYTES, SECTORS};
ghost use Rattle.xr_base.specs.Image.{part};
ghost use Rattle.xr_disk.specs.Crash.{Crash, IsSectorRange};
ghost use Rattle.xr_disk.specs.Disk.{DiskView, IsAtRest, IsSame, IsCall, MayTear, CoversNoMore, Overlays};
ghost use Rattle.xr_disk.specs.Seen.{WasSeen};

use xr_base::Fault;

/// A disk of `SECTORS` sectors. Each of its calls moves a clock on by one; at the clock's last value, `u64::MAX`, each
/// call is a fault that changes nothing. Between two syncs each range that was written may hold any bytes after a
/// crash; bytes outside stay. Faults are counted, and nothing else is; a count stays at `u64::MAX`.
pub trait Disk {
    ghost view: { Self → DiskView };

    /// Reads whole sectors, from sector `at` on. After a fault the buffer may hold any bytes.
    fn read(&mut self, at: u32, out: &mut [u8]) -> Result<(), Fault>
        requires { IsSectorRange at (length out.old) }
        ensures bytes { OnOk result (WasSeen (view self.old).seen (λ s. out.new ≡ part (SECTOR_BYTES * at) (length out.old) s)) }
        ensures same { IsSame (view self.old) (view self.new) }
        ensures call { IsCall (view self.old) (view self.new) result };

    /// Writes whole sectors, from sector `at` on. After a fault the range may hold any bytes.
    fn write(&mut self, at: u32, bytes: &[u8]) -> Result<(), Fault>
        requires { IsSectorRange at (length bytes.now) }
        ensures written { OnOk result (Overlays (SECTOR_BYTES * at) bytes.now (view self.old) (view self.new)) }
        ensures torn { MayTear (SECTOR_BYTES * at) bytes.now (view self.old) (view self.new) }
        ensures call { IsCall (view self.old) (view self.new) result };

    /// Makes what was written last: after Ok reads give what they gave, and a crash leaves that. After a fault no more
    /// is covered than before, and reads may give another of the images that a crash may leave.
    fn sync(&mut self) -> Result<(), Fault>
        ensures durable { OnOk result (WasSeen (view self.old).seen (λ s. IsAtRest s (view self.new))) }
        ensures seen { OnOk result ((view self.new).seen ≡ (view self.old).seen) }
        ensures failed { OnErr result (CoversNoMore (view self.old) (view self.new)) }
        ensures call { IsCall (view self.old) (view self.new) result };

    /// The clock: how many calls there were.
    fn moment(&self) -> u64
        ensures { result ≡ (view self.now).moment };

    /// How many calls failed.
    fn faults(&self) -> u64
        ensures { result ≡ (view self.now).faults };

    // What a read gives, a crash may leave, perhaps with some writes in flight.
    ghost seen_may_stay: { (disk : Self) (s : List ℕ) → (view disk).seen ≡ Some s → (c : Crash) × (c.image ≡ s) × (view disk).may_leave c };

    // A crash now is one since any moment so far, and one since now is one now.
    ghost counts_now: { (disk : Self) (t : ℕ) (c : Crash) → t ≤ (view disk).moment → (view disk).may_leave c → (view disk).left_since t c };

    ghost only_now: { (disk : Self) (c : Crash) → (view disk).left_since (view disk).moment c → (view disk).may_leave c };

    // What was left since a moment was left since each moment before it.
    ghost narrows: { (disk : Self) (t u : ℕ) (c : Crash) → t ≤ u → (view disk).left_since u c → (view disk).left_since t c };

    // Each image has the size of the disk.
    ghost sized: { (disk : Self) (c : Crash) → (view disk).may_leave c → length c.image ≡ SECTOR_BYTES * SECTORS };
}
