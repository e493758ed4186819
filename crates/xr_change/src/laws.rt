//! What a change of a tree makes of its records as a set, which records may come into it, and what one change after another is.
ghost use Rattle.xr_change.specs.SetRules.{InsertionGains, RemovalLoses, ReplacementSwaps};
ghost use Rattle.xr_change.specs.SetRules.{InsertionKeepsRules, RemovalKeepsRules, ReplacementKeepsRules};
ghost use Rattle.xr_change.specs.TreeSteps.{ChangesAreSteps, InsertionIsGain, RemovalIsLoss, ReplacementIsSwap, TreeStepsFollow};

use xr_kinds::Record;

/// Records keep their rules with one more that agrees with each, with one less, and with another in the place of one that
/// agrees with each of the rest.
pub fn records_keep_rules<R: Record>()
    ensures inserted { InsertionKeepsRules R.form }
    ensures removed { RemovalKeepsRules R.form }
    ensures replaced { ReplacementKeepsRules R.form }
{}

/// Which records there are after a change of their list, and how many.
pub fn records_change_as_sets<R: Record>()
    ensures inserted { InsertionGains R.form }
    ensures removed { RemovalLoses R.form }
    ensures replaced { ReplacementSwaps R.form }
{}

/// A change of a tree is a step of it with a record more, a record less, or another in the place of one.
pub fn changes_are_steps<R: Record>()
    ensures step { ChangesAreSteps R.form }
    ensures gain { InsertionIsGain R.form }
    ensures loss { RemovalIsLoss R.form }
    ensures swap { ReplacementIsSwap R.form }
{}

/// Steps of a tree, one after the other, are one step of it.
pub fn tree_steps_follow<R: Record>()
    ensures { TreeStepsFollow R.form }
{}
