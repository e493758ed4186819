//! Forcing what was committed to the disk.
ghost use Rattle.std.specs.Prelude.{◌≡◌, ◌↔◌, ℕ, IsTrue, Some};
ghost use Rattle.xr_log.specs.Calls.{NeedsLastCycle};
ghost use Rattle.xr_log.specs.Forces.{Forces, HasNothingPacked};
ghost use Rattle.xr_log.specs.Positions.{packed_sectors};

use crate::fault::LogFault;
use crate::held::{Growing, Held};
use crate::next_head::{needs_last_cycle, packed_sectors};
use crate::writing::write_packed;
use xr_base::geometry::CYCLES;
use xr_disk::Disk;

/// Whether the packed record would need the cycle that none may have.
fn wears_out(growing: &Growing) -> bool
    ensures { IsTrue result ↔ NeedsLastCycle growing.now.last (packed_sectors growing.now.packer) }
{
    needs_last_cycle(&growing.last, packed_sectors(&growing.packer))
}

/// Writes the record that grows, where there is anything in it.
pub(crate) fn force_held<D: Disk>(disk: &mut D, held: &mut Held) -> Result<(), LogFault>
    ensures forces { Forces (D.view disk.old) (D.view disk.new) held.old held.new result }
    ensures nothing { HasNothingPacked held.old → (held.new ≡ held.old) × (disk.new ≡ disk.old) }
    ensures idle { (faults : ℕ) → held.old.down ≡ Some faults → disk.new ≡ disk.old }
{
    if let Some(faults) = held.down {
        return Err(LogFault::Down { faults });
    }
    if held.growing.packer.body().is_empty() {
        return Ok(());
    }
    if wears_out(&held.growing) {
        return Err(LogFault::Worn { cycle: CYCLES });
    }
    write_packed(disk, held)
}
