//! The roll of a work on owners, counts, staged or free blocks of a group.
ghost use Rattle.std.specs.Prelude.{◌≡◌, ◌≤◌, [], length};
ghost use Rattle.xr_chain.specs.ChainView.{HasRollRoom, IsPlaced, OfFirst, first_need, group_at};
ghost use Rattle.xr_chain.specs.Events.{RollsGroup, RollsWith, logged_group};
ghost use Rattle.xr_chain.specs.GroupWorks.{ChangesItsPart, DoesGroupWork};
ghost use Rattle.xr_chain.specs.Readiness.{IsGroupReady};
ghost use Rattle.xr_group.specs.Sets.{IsPaired};
ghost use Rattle.xr_items.specs.Transactions.{no_trans};
ghost use Rattle.xr_items.specs.declared.layout.TheConstants.{TRANS_BLOCKS};
ghost use Rattle.xr_open.specs.PoolState.{dropped_to_kept};

use crate::begin::ask_for;
use crate::chain::{Chain, Need};
use crate::changed::add_group;
use crate::group_work::do_group_work;
use xr_group::Group;
use xr_items::Trans;

impl Chain {
    /// Does the first work, which changes the group. A work on counts does the first part of its run whose blocks count alike, and
    /// leaves one for the rest; where a lowering takes the last owner of that part, it leaves one that gives it, in front of that.
    /// The transaction gets the blocks of the group that changed, the works that are left and the slot of the one that is done.
    pub fn roll_group(self, group: &mut Group, trans: &mut Trans) -> Chain
        requires need { first_need self.works ≡ Need.Group (group_at group.old.number) }
        requires placed { IsPlaced self }
        requires room { HasRollRoom self.works }
        requires ready { OfFirst (IsGroupReady group.old) self.works }
        requires paired { IsPaired group.old }
        requires unchanged { group.old.changed ≡ [] }
        requires empty { trans.old ≡ no_trans }
        ensures rolled { RollsWith (RollsGroup group.old group.new) (logged_group group.new) self result trans.new }
        ensures does { OfFirst (λ work. DoesGroupWork group.old group.new work trans.new.works) self.works }
        ensures change { OfFirst (ChangesItsPart group.old group.new) self.works }
        ensures paired { IsPaired group.new }
        ensures kept { dropped_to_kept group.new ≡ group.old }
        ensures few { length trans.new.blocks ≤ TRANS_BLOCKS }
    {
        group.is_group();
        let (work, slot) = self.head();
        let left = do_group_work(group, &work);
        group.is_group();
        add_group(group, trans);
        ask_for(left.works(), trans);
        trans.add_done(slot);
        self.behind_head(left.works())
    }
}
