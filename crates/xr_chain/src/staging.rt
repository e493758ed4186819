//! The staging of a run of free blocks for copy-on-write, and the release of one that was left staged.
ghost use Rattle.std.specs.Prelude.{◌≡◌, ℕ, ◌≤◌, ◌↔◌, false, [], IsNone, IfSome, length};
ghost use Rattle.xr_balance.specs.Rows.{works_of_release, works_of_staging};
ghost use Rattle.xr_base.specs.Address.{IsGoodRun};
ghost use Rattle.xr_chain.specs.Events.{BeginsWith, StagesIn, logged_group};
ghost use Rattle.xr_group.specs.Group.{ChangesGroup};
ghost use Rattle.xr_group.specs.Sets.{IsFirstFree, IsPaired, has_free};
ghost use Rattle.xr_group.specs.Trees.{free_part};
ghost use Rattle.xr_items.specs.Transactions.{no_trans};
ghost use Rattle.xr_items.specs.declared.layout.TheConstants.{TRANS_BLOCKS};
ghost use Rattle.xr_open.specs.PoolState.{dropped_to_kept};

use crate::begin::begin;
use crate::chain::Chain;
use crate::changed::add_group;
use crate::works::staged_owner_work;
use xr_base::Run;
use xr_group::Group;
use xr_items::{CountKind, OwnKind, Trans, Work};

/// A run that was staged, and the chain that is still to be done for it.
#[derive(Drop)]
pub struct Staged {
    pub chain: Chain,
    pub run: Run,
}

impl Chain {
    /// Stages the first free blocks of the group, as many as are needed or as stand together. None where no block is free, and
    /// then nothing changes. Memory is taken by no call of a chain.
    pub fn stage(group: &mut Group, need: u32, trans: &mut Trans) -> Option<Staged>
        requires some { 1 ≤ need }
        requires paired { IsPaired group.old }
        requires unchanged { group.old.changed ≡ [] }
        requires empty { trans.old ≡ no_trans }
        ensures none { IsNone result ↔ ((a : ℕ) → has_free group.old a ≡ false) }
        ensures same { IsNone result → (group.new ≡ group.old) × (trans.new ≡ trans.old) }
        ensures run { IfSome result (λ staged. IsFirstFree group.old need staged.run) }
        ensures event { IfSome result (λ staged. StagesIn group.old group.new staged.run) }
        ensures begins { IfSome result (λ staged. BeginsWith (logged_group group.new) (works_of_staging staged.run) staged.chain trans.new) }
        ensures change { ChangesGroup free_part 22 group.old group.new }
        ensures paired { IsPaired group.new }
        ensures kept { dropped_to_kept group.new ≡ group.old }
        ensures few { length trans.new.blocks ≤ TRANS_BLOCKS }
    {
        group.is_group();
        let run = group.take_first(need)?;
        add_group(group, trans);
        let chain = begin(
            &[
                Work::Count {
                    kind: CountKind::AllocCow,
                    run,
                },
                staged_owner_work(OwnKind::Alloc, run),
            ],
            trans,
        );
        Some(Staged { chain, run })
    }

    /// Begins to release a run that was left staged. No block changes.
    pub fn release(run: &Run, trans: &mut Trans) -> Chain
        requires good { IsGoodRun run.now }
        requires empty { trans.old ≡ no_trans }
        ensures { BeginsWith [] (works_of_release run.now) result trans.new }
    {
        begin(
            &[
                Work::Count {
                    kind: CountKind::FreeCow,
                    run: *run,
                },
                staged_owner_work(OwnKind::Free, *run),
                Work::Free { run: *run },
            ],
            trans,
        )
    }
}
