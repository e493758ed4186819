//! The command `show` of a log: from the log of a disk's image to the text of its live stream.
ghost use Rattle.std.specs.Prelude.{◌+◌, ◌≤◌, IfOk, IfErr};
ghost use Rattle.std.specs.String.{string_bytes};
ghost use Rattle.xr_base.specs.Cause.{Rose};
ghost use Rattle.xr_disk.specs.Disk.{OnlyReads};
ghost use Rattle.xr_commit.specs.ItemsOf.{EntriesHaveItems};
ghost use Rattle.xr_cmd.specs.Failures.{ShowLogFails};
ghost use Rattle.xr_cmd.specs.ShowLog.{IsTextOfLive, ShowsLog};

use crate::failure::Failure;
use std::alloc::{AllocError, Global};
use xr_commit::{Live, items_of_each, live, pending_works};
use xr_disk::Disk;
use xr_text::{push_entries, push_heads, push_pending};

/// The text of a live stream.
fn live_text(alloc: Global, live: &Live) -> Result<String, AllocError>
    requires { EntriesHaveItems live.now.entries.items }
    ensures { IfOk result (λ text. IsTextOfLive live.now (string_bytes text)) }
{
    let items = items_of_each(alloc, &live.entries)?;
    let works = pending_works(alloc, &items)?;
    let mut text = String::new(alloc);
    push_heads(&mut text, &live.heads)?;
    push_entries(&mut text, &live.entries, &items)?;
    push_pending(&mut text, &works)?;
    Ok(text)
}

/// The text of the live stream of the disk's image.
pub fn show_log<D: Disk>(alloc: Global, disk: &mut D) -> Result<String, Failure>
    ensures done { IfOk result (λ text. ShowsLog (D.view disk.old).seen (string_bytes text)) }
    ensures failure { IfErr result (ShowLogFails (D.view disk.old).seen (Rose (D.view disk.old).faults (D.view disk.new).faults)) }
    ensures reads { OnlyReads (D.view disk.old) (D.view disk.new) }
    ensures clock { (D.view disk.new).moment ≤ (D.view disk.old).moment + 2 }
    ensures count { (D.view disk.old).faults ≤ (D.view disk.new).faults }
{
    let live = live(alloc, disk)?;
    Ok(live_text(alloc, &live)?)
}
