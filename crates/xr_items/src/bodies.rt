//! What stands after type and number of regions, by the kind of item.
ghost use Rattle.std.specs.Prelude.{◌≡◌, MatchResult, length};
ghost use Rattle.xr_items.specs.FirstBroken.{NamesBufField, NamesInodeField, NamesShortField, NamesFreeField, NamesCountField};
ghost use Rattle.xr_items.specs.FirstBroken.{NamesOwnField, NamesMapField, NamesSwapField, NamesOpening, NamesRun, NamesNone};
ghost use Rattle.xr_items.specs.Taking.{IsBodyOf};
ghost use Rattle.xr_items.specs.FirstBroken.{NamesItemField};
ghost use Rattle.xr_items.specs.Taking.{HoldsRun};
ghost use Rattle.xr_items.specs.Items.{HoldsBody, length_of, short_body, run_body};
ghost use Rattle.xr_items.specs.declared.layout.TheConstants.{RUN_BYTES, SHORT_BYTES};
ghost use Rattle.xr_items.specs.Valid.{IsId, IsInode};
ghost use Rattle.xr_items.specs.declared.item.Item.TheVariants.{Done};
ghost use Rattle.xr_base.specs.Address.{IsGoodRun};
ghost use Rattle.xr_items.specs.declared.item.ItemKind.TheVariants.{Buf, Rui, Cui, Bui, Xmi};

use crate::item::{DoneOf, Item, ItemKind};
use crate::layout::{
    BUF_FLAGS_PLACE, BUF_LEN_PLACE, BUF_MAP_PLACE, BUF_SECTOR_PLACE, BUF_WORDS_PLACE,
    EXTENTS_PLACE, ID_PLACE, MAP_FLAGS_PLACE, MAP_LEN_PLACE, MAP_OFF_PLACE, MAP_START_PLACE,
    OWNER_PLACE, RUN_FLAGS_PLACE, RUN_LEN_PLACE, RUN_START_PLACE, SWAP_INO_PLACE, SWAP_LEN_PLACE,
    SWAP_OFF_PLACE, SWAP_OTHER_OFF_PLACE, SWAP_OTHER_PLACE, WHOLE_BLOCK,
};
use crate::rules::{
    are_swappable, file_of, first_broken, is_buffer_sector, is_data_at, is_id, is_inode,
    is_owned_run, is_owner, is_range, is_run, may_begin, run_in, take_zeros,
};
use crate::work::{CountKind, MapKind, OwnKind, Work};
use xr_base::geometry::{BLOCK_SECTORS, OFFSETS};
use xr_base::{Run, le16_at, le32_at, le64_at};

fn take_buf(region: &[u8]) -> Result<Item, usize>
    requires { length region.now ≡ length_of Buf }
    ensures { MatchResult result (IsBodyOf Buf region.now) (NamesBufField region.now) }
{
    let sector = le64_at(region, BUF_SECTOR_PLACE);
    first_broken(&[
        (BUF_FLAGS_PLACE, le16_at(region, BUF_FLAGS_PLACE) == 0),
        (
            BUF_LEN_PLACE,
            u32::from(le16_at(region, BUF_LEN_PLACE)) == BLOCK_SECTORS,
        ),
        (BUF_SECTOR_PLACE, is_buffer_sector(sector)),
        (BUF_WORDS_PLACE, le32_at(region, BUF_WORDS_PLACE) == 1),
        (BUF_MAP_PLACE, le32_at(region, BUF_MAP_PLACE) == WHOLE_BLOCK),
    ])?;
    Ok(Item::Buf { sector })
}

fn take_inode(region: &[u8]) -> Result<u64, usize>
    requires { length region.now ≡ SHORT_BYTES }
    ensures { MatchResult result (λ ino. IsInode ino × HoldsBody (short_body ino) region.now) (NamesInodeField region.now) }
{
    take_zeros(region, EXTENTS_PLACE)?;
    let ino = le64_at(region, ID_PLACE);
    first_broken(&[(ID_PLACE, is_inode(ino))])?;
    Ok(ino)
}

/// The id of a done item that holds nothing else.
fn take_short(region: &[u8]) -> Result<u64, usize>
    requires { length region.now ≡ SHORT_BYTES }
    ensures { MatchResult result (λ id. IsId id × HoldsBody (short_body id) region.now) (NamesShortField region.now) }
{
    take_zeros(region, EXTENTS_PLACE)?;
    let id = le64_at(region, ID_PLACE);
    first_broken(&[(ID_PLACE, is_id(id))])?;
    Ok(id)
}

/// The id and the run of an item that names a run alone.
fn take_run(region: &[u8]) -> Result<(u64, Run), usize>
    requires { length region.now ≡ RUN_BYTES }
    ensures { MatchResult result (λ taken. IsId taken.0 × IsGoodRun taken.1 × HoldsRun taken.0 taken.1 region.now)
        (NamesOpening region.now (NamesRun region.now NamesNone)) }
{
    let id = le64_at(region, ID_PLACE);
    let start = le64_at(region, RUN_START_PLACE);
    let len = le32_at(region, RUN_LEN_PLACE);
    first_broken(&[
        (EXTENTS_PLACE, le32_at(region, EXTENTS_PLACE) == 1),
        (ID_PLACE, is_id(id)),
        (RUN_START_PLACE, is_data_at(start)),
        (RUN_LEN_PLACE, is_run(start, len)),
    ])?;
    Ok((id, run_in(start, len)))
}

/// The id and the run of an item that frees, or freed, a run.
fn take_free(region: &[u8]) -> Result<(u64, Run), usize>
    requires { length region.now ≡ RUN_BYTES }
    ensures { MatchResult result (λ taken. IsId taken.0 × IsGoodRun taken.1 × HoldsBody (run_body taken.0 taken.1 0) region.now)
        (NamesFreeField region.now) }
{
    let taken = take_run(region)?;
    take_zeros(region, RUN_FLAGS_PLACE)?;
    Ok(taken)
}

fn take_count(region: &[u8]) -> Result<Item, usize>
    requires { length region.now ≡ length_of Cui }
    ensures { MatchResult result (IsBodyOf Cui region.now) (NamesCountField region.now) }
{
    let (id, run) = take_run(region)?;
    let kind = CountKind::of_code(le32_at(region, RUN_FLAGS_PLACE)).ok_or(RUN_FLAGS_PLACE)?;
    Ok(Item::Begin {
        id,
        work: Work::Count { kind, run },
    })
}

fn take_own(region: &[u8]) -> Result<Item, usize>
    requires { length region.now ≡ length_of Rui }
    ensures { MatchResult result (IsBodyOf Rui region.now) (NamesOwnField region.now) }
{
    let id = le64_at(region, ID_PLACE);
    let owner = le64_at(region, OWNER_PLACE);
    let start = le64_at(region, MAP_START_PLACE);
    let off = le64_at(region, MAP_OFF_PLACE);
    let len = le32_at(region, MAP_LEN_PLACE);
    first_broken(&[
        (EXTENTS_PLACE, le32_at(region, EXTENTS_PLACE) == 1),
        (ID_PLACE, is_id(id)),
        (OWNER_PLACE, is_owner(owner)),
        (MAP_START_PLACE, is_data_at(start)),
        (MAP_OFF_PLACE, may_begin(owner, off)),
        (MAP_LEN_PLACE, is_owned_run(owner, off, start, len)),
    ])?;
    let kind = OwnKind::of_code(le32_at(region, MAP_FLAGS_PLACE), owner).ok_or(MAP_FLAGS_PLACE)?;
    let work = Work::Own {
        kind,
        owner,
        off,
        run: run_in(start, len),
    };
    Ok(Item::Begin { id, work })
}

fn take_map(region: &[u8]) -> Result<Item, usize>
    requires { length region.now ≡ length_of Bui }
    ensures { MatchResult result (IsBodyOf Bui region.now) (NamesMapField region.now) }
{
    let id = le64_at(region, ID_PLACE);
    let ino = le64_at(region, OWNER_PLACE);
    let start = le64_at(region, MAP_START_PLACE);
    let off = le64_at(region, MAP_OFF_PLACE);
    let len = le32_at(region, MAP_LEN_PLACE);
    first_broken(&[
        (EXTENTS_PLACE, le32_at(region, EXTENTS_PLACE) == 1),
        (ID_PLACE, is_id(id)),
        (OWNER_PLACE, is_inode(ino)),
        (MAP_START_PLACE, is_data_at(start)),
        (MAP_OFF_PLACE, off < u64::from(OFFSETS)),
        (
            MAP_LEN_PLACE,
            is_run(start, len) && is_range(off, u64::from(len)),
        ),
    ])?;
    let kind = MapKind::of_code(le32_at(region, MAP_FLAGS_PLACE)).ok_or(MAP_FLAGS_PLACE)?;
    let work = Work::Map {
        kind,
        file: file_of(ino),
        off: off as u32,
        run: run_in(start, len),
    };
    Ok(Item::Begin { id, work })
}

fn take_swap(region: &[u8]) -> Result<Item, usize>
    requires { length region.now ≡ length_of Xmi }
    ensures { MatchResult result (IsBodyOf Xmi region.now) (NamesSwapField region.now) }
{
    take_zeros(region, EXTENTS_PLACE)?;
    let id = le64_at(region, ID_PLACE);
    let ino = le64_at(region, SWAP_INO_PLACE);
    let other = le64_at(region, SWAP_OTHER_PLACE);
    let off = le64_at(region, SWAP_OFF_PLACE);
    let other_off = le64_at(region, SWAP_OTHER_OFF_PLACE);
    let len = le64_at(region, SWAP_LEN_PLACE);
    first_broken(&[
        (ID_PLACE, is_id(id)),
        (SWAP_INO_PLACE, is_inode(ino)),
        (SWAP_OTHER_PLACE, is_inode(other)),
        (SWAP_OFF_PLACE, off < u64::from(OFFSETS)),
        (SWAP_OTHER_OFF_PLACE, other_off < u64::from(OFFSETS)),
        (
            SWAP_LEN_PLACE,
            are_swappable(ino, other, off, other_off, len),
        ),
    ])?;
    let work = Work::Swap {
        file: file_of(ino),
        off: off as u32,
        other: file_of(other),
        other_off: other_off as u32,
        len: len as u32,
    };
    Ok(Item::Begin { id, work })
}

fn done(id: u64, of: DoneOf) -> Item
    ensures { result ≡ Done id of }
{
    Item::Done { id, of }
}

/// The item of a kind that a region of the kind's length holds, or the place of its first field that breaks a rule.
pub(crate) fn take_body(kind: ItemKind, region: &[u8]) -> Result<Item, usize>
    requires { length region.now ≡ length_of kind }
    ensures { MatchResult result (IsBodyOf kind region.now) (NamesItemField kind region.now) }
{
    match kind {
        ItemKind::Buf => take_buf(region),
        ItemKind::Inode => Ok(Item::Inode {
            ino: take_inode(region)?,
        }),
        ItemKind::Efi => {
            let (id, run) = take_free(region)?;
            let work = Work::Free { run };
            Ok(Item::Begin { id, work })
        }
        ItemKind::Efd => {
            let (id, run) = take_free(region)?;
            Ok(done(id, DoneOf::Efd { run }))
        }
        ItemKind::Rui => take_own(region),
        ItemKind::Rud => Ok(done(take_short(region)?, DoneOf::Rud)),
        ItemKind::Cui => take_count(region),
        ItemKind::Cud => Ok(done(take_short(region)?, DoneOf::Cud)),
        ItemKind::Bui => take_map(region),
        ItemKind::Bud => Ok(done(take_short(region)?, DoneOf::Bud)),
        ItemKind::Xmi => take_swap(region),
        ItemKind::Xmd => Ok(done(take_short(region)?, DoneOf::Xmd)),
    }
}
