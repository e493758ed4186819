//! The intents of a log that are pending: no later item says that they are done.
ghost use Rattle.std.specs.Prelude.{◌≡◌, ◌∷◌, [], IfOk, OnOk};
ghost use Rattle.xr_commit.specs.Done.{HasAlso, IsWalked, WalksOver, has};
ghost use Rattle.xr_commit.specs.Pending.{joined_items, pending};

use std::alloc::{AllocError, Global};
use std::collections::BTreeSet;
use xr_items::{DoneOf, Item, Work};

/// An intent that no later item ends.
#[derive(Clone, Copy, Debug, PartialEq, Eq)]
pub struct Pending {
    pub id: u64,
    pub work: Work,
}

/// The ids that done items name, by the kinds of these.
#[derive(Drop)]
struct DoneIds {
    efd: BTreeSet<u64>,
    rud: BTreeSet<u64>,
    cud: BTreeSet<u64>,
    bud: BTreeSet<u64>,
    xmd: BTreeSet<u64>,
}

fn no_ids(alloc: Global) -> DoneIds
    ensures { IsWalked [] result [] }
{
    DoneIds {
        efd: BTreeSet::new(alloc),
        rud: BTreeSet::new(alloc),
        cud: BTreeSet::new(alloc),
        bud: BTreeSet::new(alloc),
        xmd: BTreeSet::new(alloc),
    }
}

/// Whether a done item of the work's kind names the id.
fn is_done(id: u64, work: &Work, done: &DoneIds) -> bool
    ensures { result ≡ has done.now id work.now }
{
    match work {
        Work::Free { .. } => done.efd.contains(&id),
        Work::Own { .. } => done.rud.contains(&id),
        Work::Count { .. } => done.cud.contains(&id),
        Work::Map { .. } => done.bud.contains(&id),
        Work::Swap { .. } => done.xmd.contains(&id),
    }
}

fn add_done(id: u64, of: &DoneOf, done: &mut DoneIds) -> Result<(), AllocError>
    ensures { OnOk result (HasAlso id of.now done.old done.new) }
{
    match of {
        DoneOf::Efd { .. } => done.efd.insert(id)?,
        DoneOf::Rud => done.rud.insert(id)?,
        DoneOf::Cud => done.cud.insert(id)?,
        DoneOf::Bud => done.bud.insert(id)?,
        DoneOf::Xmd => done.xmd.insert(id)?,
    };
    Ok(())
}

/// Goes back over one item.
fn walk_over(item: &Item, done: &mut DoneIds, works: &mut Vec<Pending>) -> Result<(), AllocError>
    ensures { OnOk result (WalksOver (item.now ∷ []) done.old works.old.items done.new works.new.items) }
{
    match *item {
        Item::Begin { id, work } => {
            if !is_done(id, &work, done) {
                works.push(Pending { id, work })?;
            }
        }
        Item::Done { id, of } => add_done(id, &of, done)?,
        Item::Buf { .. } | Item::Inode { .. } => (),
    }
    Ok(())
}

/// Goes back over items, from the last one on.
fn walk_back(items: &[Item], done: &mut DoneIds, works: &mut Vec<Pending>) -> Result<(), AllocError>
    ensures { OnOk result (WalksOver items.now done.old works.old.items done.new works.new.items) }
{
    let mut left = items.len();
    while left > 0 {
        walk_over(&items[left - 1], done, works)?;
        left -= 1;
    }
    Ok(())
}

/// The pending intents of items in log order, whose lists are taken one after another. It is done in one pass from the last
/// item to the first.
pub fn pending_works(alloc: Global, lists: &[Vec<Item>]) -> Result<Vec<Pending>, AllocError>
    ensures { IfOk result (λ works. works.items ≡ pending (joined_items lists.now)) }
{
    let mut done = no_ids(alloc);
    let mut works = Vec::new(alloc);
    let mut left = lists.len();
    while left > 0 {
        walk_back(&lists[left - 1], &mut done, &mut works)?;
        left -= 1;
    }
    works.reverse();
    Ok(works)
}
