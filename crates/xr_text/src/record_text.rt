//! The printed text of records, a line a record. After want of memory nothing is known of the text.
ghost use Rattle.std.specs.Prelude.{◌≡◌, ◌++◌, OnOk};
ghost use Rattle.std.specs.String.{string_bytes};
ghost use Rattle.xr_text.specs.RecordText.{extents_text, free_line, free_text, owner_line, owners_text, shared_line, shared_text};

use std::alloc::AllocError;
use std::fmt::Write;
use xr_base::Run;
use xr_base::geometry::{FIRST_INODE, OWN_COW};
use xr_maps::{Counted, Extent, Rev};

/// Appends the extents of a file.
pub(crate) fn push_extents(
    text: &mut String,
    file: u32,
    extents: &[Extent],
) -> Result<(), AllocError>
    ensures { OnOk result (string_bytes text.new ≡ string_bytes text.old ++ extents_text file extents.now) }
{
    for extent in extents {
        writeln!(
            text,
            "file {file} {} {} {}",
            extent.off, extent.len, extent.at.0
        )?;
    }
    Ok(())
}

/// Appends the line of a reverse mapping record.
pub(crate) fn push_owner_line(text: &mut String, rev: &Rev) -> Result<(), AllocError>
    ensures { OnOk result (string_bytes text.new ≡ string_bytes text.old ++ owner_line rev.now) }
{
    let Rev { run, owner, off } = *rev;
    if owner == OWN_COW {
        writeln!(text, "owner {} {} staging", run.start.0, run.len)?;
    } else {
        // Any record has a line, also one with an owner below that of the first file, which no tree holds.
        let file = owner.saturating_sub(FIRST_INODE);
        writeln!(text, "owner {} {} {file} {off}", run.start.0, run.len)?;
    }
    Ok(())
}

/// Appends the reverse mapping records.
pub(crate) fn push_owners(text: &mut String, records: &[Rev]) -> Result<(), AllocError>
    ensures { OnOk result (string_bytes text.new ≡ string_bytes text.old ++ owners_text records.now) }
{
    for record in records {
        push_owner_line(text, record)?;
    }
    Ok(())
}

/// Appends the line of a reference count record.
pub(crate) fn push_shared_line(text: &mut String, counted: &Counted) -> Result<(), AllocError>
    ensures { OnOk result (string_bytes text.new ≡ string_bytes text.old ++ shared_line counted.now) }
{
    let Counted { run, count, staged } = *counted;
    if staged {
        writeln!(text, "staging {} {}", run.start.0, run.len)?;
    } else {
        writeln!(text, "shared {} {} {count}", run.start.0, run.len)?;
    }
    Ok(())
}

/// Appends the reference count records.
pub(crate) fn push_shared(text: &mut String, records: &[Counted]) -> Result<(), AllocError>
    ensures { OnOk result (string_bytes text.new ≡ string_bytes text.old ++ shared_text records.now) }
{
    for record in records {
        push_shared_line(text, record)?;
    }
    Ok(())
}

/// Appends the line of a run of free blocks.
pub(crate) fn push_free_line(text: &mut String, run: &Run) -> Result<(), AllocError>
    ensures { OnOk result (string_bytes text.new ≡ string_bytes text.old ++ free_line run.now) }
{
    writeln!(text, "free {} {}", run.start.0, run.len)?;
    Ok(())
}

/// Appends the runs of free blocks.
pub(crate) fn push_free(text: &mut String, runs: &[Run]) -> Result<(), AllocError>
    ensures { OnOk result (string_bytes text.new ≡ string_bytes text.old ++ free_text runs.now) }
{
    for run in runs {
        push_free_line(text, run)?;
    }
    Ok(())
}
