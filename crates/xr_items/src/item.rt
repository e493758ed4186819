//! The items of a transaction and their kinds.
ghost use Rattle.std.specs.Prelude.{◌≡◌, MatchOption};
ghost use Rattle.xr_items.specs.Items.{type_code, regions_of, length_of, following};

use crate::layout::{
    BUD_TYPE, BUF_BYTES, BUF_TYPE, BUI_TYPE, CUD_TYPE, CUI_TYPE, EFD_TYPE, EFI_TYPE, INODE_TYPE,
    MAP_BYTES, RUD_TYPE, RUI_TYPE, RUN_BYTES, SHORT_BYTES, SWAP_BYTES, XMD_TYPE, XMI_TYPE,
};
use crate::work::Work;
use thiserror::Error;
use xr_base::Run;
use xr_base::geometry::BLOCK_BYTES;
use xr_headers::layout::CORE_BYTES;

/// An item of a transaction, as XFS Algorithms and Data Structures, 3rd edition, Log Recovery Intent Items has it, save
/// for inode and exchange items, whose forms are our own.
#[derive(Clone, Copy, Debug, PartialEq, Eq)]
pub enum Item {
    /// A whole block, which follows as a region of its own, by the first of its sectors. It is a pool block of a file, or
    /// the header or a pool block of a group.
    Buf { sector: u64 },
    /// The core of a file, which follows as a region of its own.
    Inode { ino: u64 },
    /// An intent. Ids are 1 to 2^63 - 1.
    Begin { id: u64, work: Work },
    /// The intent with this id is done.
    Done { id: u64, of: DoneOf },
}

/// The kind of an intent that is done: what it freed, or that it changed owners, counts, maps or exchanged.
#[derive(Clone, Copy, Debug, PartialEq, Eq)]
pub enum DoneOf {
    Efd { run: Run },
    Rud,
    Cud,
    Bud,
    Xmd,
}

/// Why a region isn't the format region of an item, and at which of its bytes.
#[derive(Clone, Copy, Debug, PartialEq, Eq, Error)]
pub enum ItemFault {
    /// There are fewer than 4 bytes, or no item has this type.
    #[error("no item has the type at byte {place}")]
    ItemType { place: usize },
    /// The region has another length than items of its type, or names another number of regions.
    #[error("the item's size is wrong at byte {place}")]
    Size { place: usize },
    /// The first field that breaks a rule. A byte that has to be zero is a field of its own.
    #[error("the item is wrong at byte {place}")]
    Field { place: usize },
}

/// The twelve kinds of items, by their names in XFS: intents end with I and their done items with D.
#[derive(Clone, Copy, PartialEq, Eq)]
pub enum ItemKind {
    Buf,
    Inode,
    Efi,
    Efd,
    Rui,
    Rud,
    Cui,
    Cud,
    Bui,
    Bud,
    Xmi,
    Xmd,
}

impl ItemKind {
    /// The kind of item with a type.
    pub(crate) fn of_code(code: u16) -> Option<ItemKind>
        ensures { MatchOption result ((kind : ItemKind) → type_code kind ≡ code → ⊥) (λ kind. type_code kind ≡ code) }
    {
        match code {
            BUF_TYPE => Some(ItemKind::Buf),
            INODE_TYPE => Some(ItemKind::Inode),
            EFI_TYPE => Some(ItemKind::Efi),
            EFD_TYPE => Some(ItemKind::Efd),
            RUI_TYPE => Some(ItemKind::Rui),
            RUD_TYPE => Some(ItemKind::Rud),
            CUI_TYPE => Some(ItemKind::Cui),
            CUD_TYPE => Some(ItemKind::Cud),
            BUI_TYPE => Some(ItemKind::Bui),
            BUD_TYPE => Some(ItemKind::Bud),
            XMI_TYPE => Some(ItemKind::Xmi),
            XMD_TYPE => Some(ItemKind::Xmd),
            _ => None,
        }
    }

    /// Regions of an item of this kind, the format region included.
    pub(crate) fn regions(self) -> u16
        ensures { result ≡ regions_of self }
    {
        match self {
            ItemKind::Buf | ItemKind::Inode => 2,
            _ => 1,
        }
    }

    /// Bytes of the format region.
    pub(crate) fn length(self) -> usize
        ensures { result ≡ length_of self }
    {
        match self {
            ItemKind::Inode | ItemKind::Rud | ItemKind::Cud | ItemKind::Bud | ItemKind::Xmd =>
                SHORT_BYTES,
            ItemKind::Buf => BUF_BYTES,
            ItemKind::Efi | ItemKind::Efd | ItemKind::Cui => RUN_BYTES,
            ItemKind::Rui | ItemKind::Bui => MAP_BYTES,
            ItemKind::Xmi => SWAP_BYTES,
        }
    }
}

/// The length in bytes of the region that follows the item's format region, 0 where none does.
pub fn follows(item: &Item) -> usize
    ensures { result ≡ following item.now }
{
    match item {
        Item::Buf { .. } => BLOCK_BYTES,
        Item::Inode { .. } => CORE_BYTES,
        Item::Begin { .. } | Item::Done { .. } => 0,
    }
}
