//! A chain: the works that an event has begun and that are still to be done, with the slots that the log's table gave them.
ghost use Rattle.std.specs.Prelude.{◌≡◌, ℕ, ◌+◌, ◌<◌, ◌≤◌, [], ◌∷◌, ◌++◌, drop, length, take};
ghost use Rattle.std.specs.List.{All};
ghost use Rattle.xr_chain.specs.ChainView.{IsHead, IsPlaced, first_need, need_of};
ghost use Rattle.xr_items.specs.Valid.{IsWork};

use std::marker::Model;
use xr_base::{Addr, FileNo, GroupNo, Run, group_of};
use xr_items::layout::TRANS_WORKS;
use xr_items::{Placed, Work};

/// The most works that a chain has.
pub const CHAIN_WORKS: usize = TRANS_WORKS;

/// What stands in the places that a chain doesn't use.
const NO_WORK: Work = Work::Free {
    run: Run {
        start: Addr(0),
        len: 0,
    },
};

/// What the next roll of a chain is lent: a group, a file, or the two files of an exchange, which may be one. An ended chain
/// has no work left.
#[derive(Clone, Copy, Debug, PartialEq, Eq)]
pub enum Need {
    Group(GroupNo),
    File(FileNo),
    Pair(FileNo, FileNo),
    Ended,
}

/// At most `CHAIN_WORKS` works in the order in which they are done. The slots are those of the first of them; works that were
/// added since the log gave slots stand behind and have none yet.
#[derive(Drop)]
pub struct Chain {
    works: [Work; CHAIN_WORKS],
    len: usize,
    slots: [u8; CHAIN_WORKS],
    placed: usize,
}

impl Model for Chain {
    ghost use Rattle.xr_chain.specs.ChainParts.{AreChainParts, chain_of_parts};
    ghost use Rattle.xr_chain.specs.ChainView.{ChainView};

    ghost Value = { ChainView };

    ghost view = { λ c. chain_of_parts c.works c.len c.slots c.placed };

    ghost invariant = { λ c. AreChainParts c.works c.len c.slots c.placed };
}

/// Puts some works and the new ones behind them at the front of others.
fn put_works(works: &mut [Work], front: &[Work], new: &[Work])
    requires { length front.now + length new.now ≤ length works.old }
    ensures { take (length front.now + length new.now) works.new ≡ front.now ++ new.now }
{
    let at = front.len();
    works[..at].copy_from_slice(front);
    works[at..at + new.len()].copy_from_slice(new);
}

impl Chain {
    /// The chain of one pending work, which has that slot.
    pub fn of(slot: u8, work: Work) -> Chain
        requires { IsWork work }
        ensures { result ≡ record { works = work ∷ []; slots = slot ∷ [] } }
    {
        let mut works = [NO_WORK; CHAIN_WORKS];
        works[0] = work;
        let mut slots = [0; CHAIN_WORKS];
        slots[0] = slot;
        Chain {
            works,
            len: 1,
            slots,
            placed: 1,
        }
    }

    /// The chain of some works with the new ones behind them, where the first have these slots.
    pub(crate) fn joined(front: &[Work], new: &[Work], slots: &[u8]) -> Chain
        requires fit { length front.now + length new.now ≤ CHAIN_WORKS }
        requires placed { length slots.now ≤ length front.now + length new.now }
        requires valid_front { All IsWork front.now }
        requires valid_new { All IsWork new.now }
        ensures { result ≡ record { works = front.now ++ new.now; slots = slots.now } }
    {
        let len = front.len() + new.len();
        let mut works = [NO_WORK; CHAIN_WORKS];
        put_works(&mut works, front, new);
        let mut places = [0; CHAIN_WORKS];
        places[..slots.len()].copy_from_slice(slots);
        Chain {
            works,
            len,
            slots: places,
            placed: slots.len(),
        }
    }

    /// The works, in their order.
    pub(crate) fn works(&self) -> &[Work]
        ensures list { result.now ≡ self.now.works }
        ensures valid { All IsWork result.now }
        ensures fit { length result.now ≤ CHAIN_WORKS }
    {
        &self.works[..self.len]
    }

    /// The slots of the first works.
    pub(crate) fn slots(&self) -> &[u8]
        ensures list { result.now ≡ self.now.slots }
        ensures fit { length result.now ≤ length self.now.works }
    {
        &self.slots[..self.placed]
    }

    /// The first work and its slot, where each work has one.
    pub(crate) fn head(&self) -> (Work, u8)
        requires some { 1 ≤ length self.now.works }
        requires placed { IsPlaced self.now }
        ensures first { IsHead self.now result.0 result.1 }
        ensures valid { IsWork result.0 }
    {
        (self.works()[0], self.slots()[0])
    }

    /// The chain without its first work, with what that left behind all others.
    pub(crate) fn behind_head(&self, left: &[Work]) -> Chain
        requires some { 1 ≤ length self.now.works }
        requires placed { IsPlaced self.now }
        requires fit { length self.now.works + length left.now ≤ CHAIN_WORKS + 1 }
        requires valid { All IsWork left.now }
        ensures { result ≡ record { works = drop 1 self.now.works ++ left.now; slots = drop 1 self.now.slots } }
    {
        Chain::joined(&self.works()[1..], left, &self.slots()[1..])
    }

    /// The same chain once more.
    pub fn copy(&self) -> Chain
        ensures { result ≡ self.now }
    {
        Chain {
            works: self.works,
            len: self.len,
            slots: self.slots,
            placed: self.placed,
        }
    }

    /// Gives the works that have no slot yet the slots that the log's table gave them, in order.
    pub fn placed(&mut self, placed: &Placed)
        requires { length self.old.slots + placed.now.count ≡ length self.old.works }
        ensures { self.new ≡ record self.old { slots = self.old.slots ++ take placed.now.count placed.now.slots } }
    {
        let new = self.len - self.placed;
        self.slots[self.placed..self.len].copy_from_slice(&placed.slots[..new]);
        self.placed = self.len;
    }

    /// What the next roll needs.
    pub fn need(&self) -> Need
        ensures { result ≡ first_need self.now.works }
    {
        if self.len == 0 {
            return Need::Ended;
        }
        work_need(&self.works[0])
    }
}

fn work_need(work: &Work) -> Need
    requires { IsWork work.now }
    ensures { result ≡ need_of work.now }
{
    match *work {
        Work::Free { run } | Work::Own { run, .. } | Work::Count { run, .. } => {
            Need::Group(group_of(run.start))
        }
        Work::Map { file, .. } => Need::File(file),
        Work::Swap { file, other, .. } => Need::Pair(file, other),
    }
}
