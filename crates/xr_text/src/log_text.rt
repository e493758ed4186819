//! The printed text of a log. After want of memory nothing is known of the text.
ghost use Rattle.std.specs.Prelude.{◌≡◌, ◌+◌, ◌++◌, OnOk, length};
ghost use Rattle.std.specs.String.{string_bytes};
ghost use Rattle.xr_base.specs.declared.geometry.TheConstants.{FIRST_INODE};
ghost use Rattle.xr_commit.specs.ItemsOf.{items_in};
ghost use Rattle.xr_text.specs.LogText.{done_line, item_line, items_text, mapping_line, work_line};
ghost use Rattle.xr_text.specs.LogText.{entries_text, entry_text, head_line, heads_text, pending_line};

use std::alloc::AllocError;
use std::fmt::Write;
use xr_base::geometry::FIRST_INODE;
use xr_base::{FileNo, Run};
use xr_commit::Pending;
use xr_items::{DoneOf, Item, Work};
use xr_record::{Entry, Head};

/// Appends the line of a record.
fn push_head(text: &mut String, head: &Head) -> Result<(), AllocError>
    ensures { OnOk result (string_bytes text.new ≡ string_bytes text.old ++ head_line head.now) }
{
    let Head {
        lsn,
        tail,
        len,
        ops,
        ..
    } = *head;
    writeln!(
        text,
        "record {}:{} {}:{} {len} {ops}",
        lsn.cycle, lsn.sector, tail.cycle, tail.sector
    )?;
    Ok(())
}

/// Appends the lines of the records.
pub fn push_heads(text: &mut String, heads: &[Head]) -> Result<(), AllocError>
    ensures { OnOk result (string_bytes text.new ≡ string_bytes text.old ++ heads_text heads.now) }
{
    for head in heads {
        push_head(text, head)?;
    }
    Ok(())
}

/// The inode number of a file.
fn ino_of(file: FileNo) -> u64
    ensures { result ≡ FIRST_INODE + file.0 }
{
    FIRST_INODE + u64::from(file.0)
}

/// Appends the line of an intent on the blocks that an owner has from an offset on.
fn push_mapping(
    text: &mut String,
    name: &str,
    id: u64,
    kind: u32,
    owner: u64,
    off: u64,
    run: &Run,
) -> Result<(), AllocError>
    ensures { OnOk result (string_bytes text.new ≡ string_bytes text.old ++ mapping_line name.now id kind owner off run.now) }
{
    writeln!(
        text,
        "{name} {id} {kind} {owner} {} {off} {}",
        run.start.0, run.len
    )?;
    Ok(())
}

/// Appends the line of an intent.
fn push_work(text: &mut String, id: u64, work: &Work) -> Result<(), AllocError>
    ensures { OnOk result (string_bytes text.new ≡ string_bytes text.old ++ work_line id work.now) }
{
    match *work {
        Work::Free { run } => writeln!(text, "efi {id} {} {}", run.start.0, run.len)?,
        Work::Own {
            kind,
            owner,
            off,
            run,
        } => push_mapping(text, "rui", id, kind.code(), owner, off, &run)?,
        Work::Count { kind, run } => {
            let kind = kind.code();
            writeln!(text, "cui {id} {kind} {} {}", run.start.0, run.len)?;
        }
        Work::Map {
            kind,
            file,
            off,
            run,
        } => push_mapping(text, "bui", id, kind.code(), ino_of(file), off.into(), &run)?,
        Work::Swap {
            file,
            off,
            other,
            other_off,
            len,
        } => {
            let one = ino_of(file);
            let two = ino_of(other);
            writeln!(text, "xmi {id} {one} {off} {two} {other_off} {len}")?;
        }
    }
    Ok(())
}

/// Appends the line of a done item.
fn push_done(text: &mut String, id: u64, of: &DoneOf) -> Result<(), AllocError>
    ensures { OnOk result (string_bytes text.new ≡ string_bytes text.old ++ done_line id of.now) }
{
    match of {
        DoneOf::Efd { .. } => writeln!(text, "efd {id}")?,
        DoneOf::Rud => writeln!(text, "rud {id}")?,
        DoneOf::Cud => writeln!(text, "cud {id}")?,
        DoneOf::Bud => writeln!(text, "bud {id}")?,
        DoneOf::Xmd => writeln!(text, "xmd {id}")?,
    }
    Ok(())
}

/// Appends the line of an item.
fn push_item(text: &mut String, item: &Item) -> Result<(), AllocError>
    ensures { OnOk result (string_bytes text.new ≡ string_bytes text.old ++ item_line item.now) }
{
    match item {
        Item::Buf { sector } => writeln!(text, "buf {sector}")?,
        Item::Inode { ino } => writeln!(text, "inode {ino}")?,
        Item::Begin { id, work } => push_work(text, *id, work)?,
        Item::Done { id, of } => push_done(text, *id, of)?,
    }
    Ok(())
}

/// Appends the lines of items.
fn push_items(text: &mut String, items: &[Item]) -> Result<(), AllocError>
    ensures { OnOk result (string_bytes text.new ≡ string_bytes text.old ++ items_text items.now) }
{
    for item in items {
        push_item(text, item)?;
    }
    Ok(())
}

/// Appends an entry, with its items.
fn push_entry(text: &mut String, entry: &Entry, items: &[Item]) -> Result<(), AllocError>
    ensures { OnOk result (string_bytes text.new ≡ string_bytes text.old ++ entry_text entry.now items.now) }
{
    match entry {
        Entry::Trans { tid, .. } => {
            writeln!(text, "trans {tid} {}", items.len())?;
            push_items(text, items)?;
        }
        Entry::Unmount => writeln!(text, "unmount")?,
    }
    Ok(())
}

/// Appends the entries, each with its own items.
pub fn push_entries(
    text: &mut String,
    entries: &[Entry],
    items: &[Vec<Item>],
) -> Result<(), AllocError>
    requires { length entries.now ≡ length items.now }
    ensures { OnOk result (string_bytes text.new ≡ string_bytes text.old ++ entries_text entries.now (items_in items.now)) }
{
    for i in 0..entries.len() {
        push_entry(text, &entries[i], &items[i])?;
    }
    Ok(())
}

/// Appends how many intents are pending.
pub fn push_pending(text: &mut String, works: &[Pending]) -> Result<(), AllocError>
    ensures { OnOk result (string_bytes text.new ≡ string_bytes text.old ++ pending_line (length works.now)) }
{
    writeln!(text, "pending {}", works.len())?;
    Ok(())
}
