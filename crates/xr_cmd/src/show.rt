//! The command `show` of a part of a clean image: from a disk's image to the text of the records of its trees.
ghost use Rattle.std.specs.Prelude.{◌+◌, ◌≤◌, IfErr, IfOk};
ghost use Rattle.std.specs.String.{string_bytes};
ghost use Rattle.xr_base.specs.Cause.{Rose};
ghost use Rattle.xr_base.specs.declared.geometry.TheConstants.{FILES, GROUPS};
ghost use Rattle.xr_disk.specs.Disk.{OnlyReads};
ghost use Rattle.xr_cmd.specs.Failures.{ShowFails};
ghost use Rattle.xr_cmd.specs.ImageText.{IsTextOfLoaded, ShowsPart};

use crate::command_line::Part;
use crate::failure::Failure;
use std::alloc::{AllocError, Global};
use xr_check::{CountTree, FreeTree, Loaded, OwnerTree, load};
use xr_disk::Disk;
use xr_text::{push_files, push_trees};

/// The text of one part of what was loaded.
fn part_text(alloc: Global, loaded: &Loaded, part: Part) -> Result<String, AllocError>
    ensures { IfOk result (λ text. IsTextOfLoaded part loaded.now (string_bytes text)) }
{
    let mut text = String::new(alloc);
    match part {
        Part::Files => push_files(alloc, &mut text, &loaded.maps)?,
        Part::Owners => push_trees::<OwnerTree>(&mut text, &loaded.groups)?,
        Part::Shared => push_trees::<CountTree>(&mut text, &loaded.groups)?,
        Part::Free => push_trees::<FreeTree>(&mut text, &loaded.groups)?,
    }
    Ok(text)
}

/// The text of one part of the disk's image.
pub fn show<D: Disk>(alloc: Global, disk: &mut D, part: Part) -> Result<String, Failure>
    ensures done { IfOk result (λ text. ShowsPart (D.view disk.old).seen part (string_bytes text)) }
    ensures failure { IfErr result (ShowFails (D.view disk.old).seen (Rose (D.view disk.old).faults (D.view disk.new).faults)) }
    ensures reads { OnlyReads (D.view disk.old) (D.view disk.new) }
    ensures clock { (D.view disk.new).moment ≤ (D.view disk.old).moment + 2 + FILES + GROUPS }
    ensures count { (D.view disk.old).faults ≤ (D.view disk.new).faults }
{
    let loaded = load(alloc, disk)?;
    Ok(part_text(alloc, &loaded, part)?)
}
