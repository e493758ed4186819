//! What a stream of operations holds.
ghost use Rattle.std.specs.Prelude.{◌≡◌, ◌<◌, ◌↔◌, [], IsTrue, Some, length, map, slice_get};

use std::marker::Model;

/// The regions of a transaction after its header, in order. A region that was cut is one again.
#[derive(Debug, Drop)]
pub struct Regions {
    regions: Vec<Vec<u8>>,
}

impl Model for Regions {
    ghost use Rattle.std.specs.Prelude.{List, ℕ, map};

    ghost Value = { List (List ℕ) };

    ghost view = { λ r. map (λ region. region.items) r.regions.items };
}

impl Regions {
    pub(crate) fn of(regions: Vec<Vec<u8>>) -> Regions
        ensures { result ≡ map (λ region. region.items) regions.items }
    {
        Regions { regions }
    }

    pub fn len(&self) -> usize
        ensures { result ≡ length self.now }
    {
        self.regions.len()
    }

    pub fn is_empty(&self) -> bool
        ensures { IsTrue result ↔ (self.now ≡ []) }
    {
        self.regions.is_empty()
    }

    /// The bytes of the region with this number, counted from 0.
    pub fn at(&self, i: usize) -> &[u8]
        requires { i < length self.now }
        ensures { slice_get self.now i ≡ Some result.now }
    {
        &self.regions[i]
    }
}

/// What a stream of operations holds, one after another.
#[derive(Debug, Drop)]
pub enum Entry {
    /// A transaction, from its START to its COMMIT.
    Trans { tid: u32, regions: Regions },
    /// The mark of a clean unmount.
    Unmount,
}
