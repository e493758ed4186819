//! Items written as format regions.
ghost use Rattle.std.specs.Prelude.{◌≡◌, ◌≤◌, ◌++◌, ◌∷◌, length, drop};
ghost use Rattle.xr_items.specs.Fields.{bytes_of_fields};
ghost use Rattle.xr_items.specs.Items.{item_bytes, short_body, run_body, mapping_body};
ghost use Rattle.xr_items.specs.Valid.{IsItem, IsWork};
ghost use Rattle.xr_items.specs.declared.fields.Field.TheVariants.{Half};
ghost use Rattle.xr_items.specs.declared.item.Item.TheVariants.{Buf, Begin, Done};
ghost use Rattle.xr_items.specs.declared.layout.TheConstants.{LONGEST_REGION};

use crate::fields::{Field, put_fields};
use crate::item::{DoneOf, Item};
use crate::layout::{
    BUD_TYPE, BUF_TYPE, BUI_TYPE, CUD_TYPE, CUI_TYPE, EFD_TYPE, EFI_TYPE, INODE_TYPE, RUD_TYPE,
    RUI_TYPE, WHOLE_BLOCK, XMD_TYPE, XMI_TYPE,
};
use crate::work::Work;
use xr_base::Run;
use xr_base::geometry::{BLOCK_SECTORS, FIRST_INODE};

fn put_short(code: u16, regions: u16, number: u64, out: &mut [u8]) -> usize
    requires { LONGEST_REGION ≤ length out.old }
    ensures written { out.new ≡ bytes_of_fields (Half code ∷ Half regions ∷ short_body number) ++ drop result out.old }
    ensures length { result ≡ length (bytes_of_fields (Half code ∷ Half regions ∷ short_body number)) }
{
    put_fields(
        &[
            Field::Half(code),
            Field::Half(regions),
            Field::Word(0),
            Field::Long(number),
        ],
        out,
    )
}

fn put_run(code: u16, id: u64, run: &Run, flags: u32, out: &mut [u8]) -> usize
    requires { LONGEST_REGION ≤ length out.old }
    ensures written { out.new ≡ bytes_of_fields (Half code ∷ Half 1 ∷ run_body id run.now flags) ++ drop result out.old }
    ensures length { result ≡ length (bytes_of_fields (Half code ∷ Half 1 ∷ run_body id run.now flags)) }
{
    put_fields(
        &[
            Field::Half(code),
            Field::Half(1),
            Field::Word(1),
            Field::Long(id),
            Field::Long(u64::from(run.start.0)),
            Field::Word(run.len),
            Field::Word(flags),
        ],
        out,
    )
}

/// The owner's blocks from an offset on are the run.
fn put_mapping(
    code: u16,
    id: u64,
    owner: u64,
    off: u64,
    run: &Run,
    flags: u32,
    out: &mut [u8],
) -> usize
    requires { LONGEST_REGION ≤ length out.old }
    ensures written { out.new ≡ bytes_of_fields (Half code ∷ Half 1 ∷ mapping_body id owner off run.now flags) ++ drop result out.old }
    ensures length { result ≡ length (bytes_of_fields (Half code ∷ Half 1 ∷ mapping_body id owner off run.now flags)) }
{
    put_fields(
        &[
            Field::Half(code),
            Field::Half(1),
            Field::Word(1),
            Field::Long(id),
            Field::Long(owner),
            Field::Long(u64::from(run.start.0)),
            Field::Long(off),
            Field::Word(run.len),
            Field::Word(flags),
        ],
        out,
    )
}

fn put_buf(sector: u64, out: &mut [u8]) -> usize
    requires { LONGEST_REGION ≤ length out.old }
    ensures written { out.new ≡ item_bytes (Buf sector) ++ drop result out.old }
    ensures length { result ≡ length (item_bytes (Buf sector)) }
{
    put_fields(
        &[
            Field::Half(BUF_TYPE),
            Field::Half(2),
            Field::Half(0),
            Field::Half(BLOCK_SECTORS as u16),
            Field::Long(sector),
            Field::Word(1),
            Field::Word(WHOLE_BLOCK),
        ],
        out,
    )
}

fn put_work(id: u64, work: &Work, out: &mut [u8]) -> usize
    requires valid { IsWork work.now }
    requires room { LONGEST_REGION ≤ length out.old }
    ensures written { out.new ≡ item_bytes (Begin id work.now) ++ drop result out.old }
    ensures length { result ≡ length (item_bytes (Begin id work.now)) }
{
    match work {
        Work::Free { run } => put_run(EFI_TYPE, id, run, 0, out),
        Work::Own {
            kind,
            owner,
            off,
            run,
        } => put_mapping(RUI_TYPE, id, *owner, *off, run, kind.code(), out),
        Work::Count { kind, run } => put_run(CUI_TYPE, id, run, kind.code(), out),
        Work::Map {
            kind,
            file,
            off,
            run,
        } => {
            let ino = FIRST_INODE + u64::from(file.0);
            put_mapping(BUI_TYPE, id, ino, u64::from(*off), run, kind.code(), out)
        }
        Work::Swap {
            file,
            off,
            other,
            other_off,
            len,
        } => put_fields(
            &[
                Field::Half(XMI_TYPE),
                Field::Half(1),
                Field::Word(0),
                Field::Long(id),
                Field::Long(FIRST_INODE + u64::from(file.0)),
                Field::Long(FIRST_INODE + u64::from(other.0)),
                Field::Long(u64::from(*off)),
                Field::Long(u64::from(*other_off)),
                Field::Long(u64::from(*len)),
            ],
            out,
        ),
    }
}

fn put_done(id: u64, of: &DoneOf, out: &mut [u8]) -> usize
    requires { LONGEST_REGION ≤ length out.old }
    ensures written { out.new ≡ item_bytes (Done id of.now) ++ drop result out.old }
    ensures length { result ≡ length (item_bytes (Done id of.now)) }
{
    match of {
        DoneOf::Efd { run } => put_run(EFD_TYPE, id, run, 0, out),
        DoneOf::Rud => put_short(RUD_TYPE, 1, id, out),
        DoneOf::Cud => put_short(CUD_TYPE, 1, id, out),
        DoneOf::Bud => put_short(BUD_TYPE, 1, id, out),
        DoneOf::Xmd => put_short(XMD_TYPE, 1, id, out),
    }
}

/// Writes the item's format region to the front of `out`, leaves the rest of it, and answers the region's length in
/// bytes.
pub fn put(item: &Item, out: &mut [u8]) -> usize
    requires valid { IsItem item.now }
    requires room { LONGEST_REGION ≤ length out.old }
    ensures written { out.new ≡ item_bytes item.now ++ drop result out.old }
    ensures length { result ≡ length (item_bytes item.now) }
    ensures within { result ≤ LONGEST_REGION }
{
    match item {
        Item::Buf { sector } => put_buf(*sector, out),
        Item::Inode { ino } => put_short(INODE_TYPE, 2, *ino, out),
        Item::Begin { id, work } => put_work(*id, work, out),
        Item::Done { id, of } => put_done(*id, of, out),
    }
}
