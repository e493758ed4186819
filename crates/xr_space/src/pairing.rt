//! Whether the two trees of the free blocks hold the same runs.
ghost use Rattle.std.specs.Prelude.{◌≡◌, ◌<◌, ◌↔◌, true, false, IsNone, IfSome, IsTrue};
ghost use Rattle.std.specs.Ordering.{is_lt};
ghost use Rattle.xr_kinds.specs.declared.span.Span.{Span};
ghost use Rattle.xr_kinds.specs.FreeRuns.{size_order};
ghost use Rattle.xr_space.specs.Space.{ArePaired, IsFreeRun, IsNextFree, IsNextSized, IsSpace, IsRunBySize};

use crate::space::Space;
use xr_kinds::{ByBlock, BySize, Span};
use xr_pool::Overlay;

impl Space {
    fn holds_by_block(&self, over: &Overlay, run: Span) -> bool
        requires { IsSpace over.now self.now }
        ensures { IsTrue result ↔ IsFreeRun over.now self.now run }
    {
        match self.by_block.at_most(over, &ByBlock::from(run)) {
            Some(found) => found.start == run.start && found.len == run.len,
            None => false,
        }
    }

    fn holds_by_size(&self, over: &Overlay, run: Span) -> bool
        requires { IsSpace over.now self.now }
        ensures { IsTrue result ↔ IsRunBySize over.now self.now run }
    {
        match self.by_size.at_most(over, &BySize::from(run)) {
            Some(found) => found.start == run.start && found.len == run.len,
            None => false,
        }
    }

    /// The first run by block that begins at a place or after it.
    fn next_by_block(&self, over: &Overlay, place: u32) -> Option<Span>
        requires { IsSpace over.now self.now }
        ensures none { IsNone result → (run : Span) → IsFreeRun over.now self.now run → run.start < place }
        ensures next { IfSome result (λ run. IsNextFree over.now self.now place run) }
    {
        let from = ByBlock {
            start: place,
            len: 0,
        };
        Some(self.by_block.at_least(over, &from)?.span())
    }

    /// The first run by size that isn't below another.
    fn next_by_size(&self, over: &Overlay, from: Span) -> Option<Span>
        requires { IsSpace over.now self.now }
        ensures none { IsNone result → (run : Span) → IsRunBySize over.now self.now run → is_lt (size_order run from) ≡ true }
        ensures next { IfSome result (λ run. IsNextSized over.now self.now from run) }
    {
        Some(self.by_size.at_least(over, &BySize::from(from))?.span())
    }

    /// Whether each run by block stands also in the tree by size.
    fn are_sized(&self, over: &Overlay) -> bool
        requires { IsSpace over.now self.now }
        ensures { IsTrue result ↔ ((run : Span) → IsFreeRun over.now self.now run → IsRunBySize over.now self.now run) }
    {
        let mut place = 0;
        while let Some(run) = self.next_by_block(over, place) {
            if !self.holds_by_size(over, run) {
                return false;
            }
            place = run.start + 1;
        }
        true
    }

    /// Whether each run by size stands also in the tree by block.
    fn are_free(&self, over: &Overlay) -> bool
        requires { IsSpace over.now self.now }
        ensures { IsTrue result ↔ ((run : Span) → IsRunBySize over.now self.now run → IsFreeRun over.now self.now run) }
    {
        let mut from = Span { start: 0, len: 0 };
        while let Some(run) = self.next_by_size(over, from) {
            if !self.holds_by_block(over, run) {
                return false;
            }
            from = Span {
                start: run.start + 1,
                len: run.len,
            };
        }
        true
    }

    /// Whether the two trees hold the same runs.
    pub fn paired(&self, over: &Overlay) -> bool
        requires { IsSpace over.now self.now }
        ensures { IsTrue result ↔ ArePaired over.now self.now }
    {
        self.are_sized(over) && self.are_free(over)
    }
}
