//! The command `check`: from a disk's image to what is so of its trees.
ghost use Rattle.std.specs.Prelude.{◌+◌, ◌≤◌, IfErr, IfOk};
ghost use Rattle.std.specs.String.{string_bytes};
ghost use Rattle.xr_base.specs.Cause.{Rose};
ghost use Rattle.xr_base.specs.declared.geometry.TheConstants.{FILES, GROUPS};
ghost use Rattle.xr_disk.specs.Disk.{OnlyReads};
ghost use Rattle.xr_cmd.specs.Failures.{CheckFails};
ghost use Rattle.xr_cmd.specs.ImageText.{CallsSound};

use crate::answer_text::SOUND_LINE;
use crate::failure::Failure;
use std::alloc::Global;
use xr_check::{Verdict, check};
use xr_disk::Disk;

/// The line for a sound image. Another verdict is told as a failure.
pub fn check_image<D: Disk>(alloc: Global, disk: &mut D) -> Result<String, Failure>
    ensures done { IfOk result (λ text. CallsSound (D.view disk.old).seen (string_bytes text)) }
    ensures failure { IfErr result (CheckFails (D.view disk.old).seen (Rose (D.view disk.old).faults (D.view disk.new).faults)) }
    ensures reads { OnlyReads (D.view disk.old) (D.view disk.new) }
    ensures clock { (D.view disk.new).moment ≤ (D.view disk.old).moment + 2 + FILES + GROUPS }
    ensures count { (D.view disk.old).faults ≤ (D.view disk.new).faults }
{
    match check(alloc, disk)? {
        Verdict::Sound => Ok(String::from_str(alloc, SOUND_LINE)?),
        Verdict::Differs { tree, group, key } => Err(Failure::Differs { tree, group, key }),
    }
}
