//! The roll of an exchange: it takes the longest piece of both ranges that is one run or one hole in each.
ghost use Rattle.std.specs.Prelude.{◌≡◌, ◌≤◌, [], MatchOption, length};
ghost use Rattle.xr_chain.specs.ChainView.{HasRollRoom, IsPlaced, file_at, first_need, need_of};
ghost use Rattle.xr_chain.specs.Events.{RollsPair, RollsWith, trans_with};
ghost use Rattle.xr_items.specs.Transactions.{no_trans};
ghost use Rattle.xr_items.specs.Valid.{IsWork};

use crate::chain::{Chain, Need};
use crate::exchange::{Ranges, ask_exchange};
use xr_bmap::File;
use xr_items::{Trans, Work};

/// Asks for the works that the roll of an exchange of two files leaves.
fn ask_left(work: &Work, one: &File, two: &File, trans: &mut Trans)
    requires valid { IsWork work.now }
    requires need { need_of work.now ≡ Need.Pair (file_at one.now.number) (file_at two.now.number) }
    requires empty { trans.old ≡ no_trans }
    ensures rolls { RollsPair one.now two.now work.now trans.new.works }
    ensures few { length trans.new.works ≤ 9 }
    ensures only { trans.new ≡ trans_with [] trans.new.works [] }
{
    one.is_file();
    two.is_file();
    if let Work::Swap {
        file,
        off,
        other,
        other_off,
        len,
    } = *work
    {
        let ranges = Ranges {
            file,
            off,
            other,
            other_off,
            len,
        };
        ask_exchange(&ranges, one, two, trans);
    }
}

impl Chain {
    /// Does the first work, which exchanges two ranges: `one` has the first of them, and `two` the other, or None where both are
    /// of one file. It passes over the front in which both hold the same, and leaves the works of the next piece and of what is
    /// behind it. No block changes.
    pub fn roll_swap(self, one: &File, two: Option<&File>, trans: &mut Trans) -> Chain
        requires need { MatchOption two (first_need self.works ≡ Need.Pair (file_at one.now.number) (file_at one.now.number))
            (λ other. first_need self.works ≡ Need.Pair (file_at one.now.number) (file_at other.now.number)) }
        requires placed { IsPlaced self }
        requires room { HasRollRoom self.works }
        requires empty { trans.old ≡ no_trans }
        ensures rolled { MatchOption two.entry (RollsWith (RollsPair one.now one.now) [] self result trans.new)
            (λ other. RollsWith (RollsPair one.now other.now) [] self result trans.new) }
    {
        match two {
            Some(two) => self.roll_pair(one, two, trans),
            None => self.roll_pair(one, one, trans),
        }
    }

    fn roll_pair(self, one: &File, two: &File, trans: &mut Trans) -> Chain
        requires need { first_need self.works ≡ Need.Pair (file_at one.now.number) (file_at two.now.number) }
        requires placed { IsPlaced self }
        requires room { HasRollRoom self.works }
        requires empty { trans.old ≡ no_trans }
        ensures { RollsWith (RollsPair one.now two.now) [] self result trans.new }
    {
        let (work, slot) = self.head();
        ask_left(&work, one, two, trans);
        trans.add_done(slot);
        self.behind_head(trans.works())
    }
}
