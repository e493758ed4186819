//! The printed text of the records that are defined from file maps. After want of memory nothing is known of the text.
ghost use Rattle.std.specs.Prelude.{IfOk, OnOk};
ghost use Rattle.std.specs.List.{flat_map};
ghost use Rattle.std.specs.String.{string_bytes};
ghost use Rattle.xr_base.specs.declared.geometry.TheConstants.{FILES, GROUPS};
ghost use Rattle.xr_maps.specs.Records.{AreExtents, AreReverseRecords, AreReferenceRecords, AreFreeRecords};
ghost use Rattle.xr_text.specs.MapText.{AppendsLists, IsTextOfMaps, files_text};
ghost use Rattle.xr_text.specs.RecordText.{owners_text, shared_text, free_text};

use crate::record_text::{push_extents, push_free, push_owners, push_shared};
use std::alloc::{AllocError, Global};
use xr_base::geometry::{FILES, GROUPS};
use xr_base::{FileNo, GroupNo};
use xr_maps::Maps;

/// Appends the extents of all files.
pub fn push_files(alloc: Global, text: &mut String, maps: &Maps) -> Result<(), AllocError>
    ensures { OnOk result (AppendsLists (AreExtents maps.now) (files_text 0) FILES (string_bytes text.old) (string_bytes text.new)) }
{
    for file in 0..FILES {
        push_extents(text, file, &maps.extents(alloc, FileNo(file))?)?;
    }
    Ok(())
}

/// Appends the reverse mapping records of all groups.
fn push_all_owners(alloc: Global, text: &mut String, maps: &Maps) -> Result<(), AllocError>
    ensures { OnOk result (AppendsLists (AreReverseRecords maps.now) (flat_map owners_text) GROUPS
        (string_bytes text.old) (string_bytes text.new)) }
{
    for group in 0..GROUPS {
        push_owners(text, &maps.owners(alloc, GroupNo(group))?)?;
    }
    Ok(())
}

/// Appends the reference count records of all groups.
fn push_all_shared(alloc: Global, text: &mut String, maps: &Maps) -> Result<(), AllocError>
    ensures { OnOk result (AppendsLists (AreReferenceRecords maps.now) (flat_map shared_text) GROUPS
        (string_bytes text.old) (string_bytes text.new)) }
{
    for group in 0..GROUPS {
        push_shared(text, &maps.shared(alloc, GroupNo(group))?)?;
    }
    Ok(())
}

/// Appends the runs of free blocks of all groups.
fn push_all_free(alloc: Global, text: &mut String, maps: &Maps) -> Result<(), AllocError>
    ensures { OnOk result (AppendsLists (AreFreeRecords maps.now) (flat_map free_text) GROUPS (string_bytes text.old) (string_bytes text.new)) }
{
    for group in 0..GROUPS {
        push_free(text, &maps.free(alloc, GroupNo(group))?)?;
    }
    Ok(())
}

/// The text of the maps' records.
pub fn maps_text(alloc: Global, maps: &Maps) -> Result<String, AllocError>
    ensures { IfOk result (λ text. IsTextOfMaps maps.now (string_bytes text)) }
{
    let mut text = String::new(alloc);
    push_files(alloc, &mut text, maps)?;
    push_all_owners(alloc, &mut text, maps)?;
    push_all_shared(alloc, &mut text, maps)?;
    push_all_free(alloc, &mut text, maps)?;
    Ok(text)
}
