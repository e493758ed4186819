//! What the balance is, and what keeps it.
ghost use Rattle.xr_balance.specs.ChainLaws.{ChainsBegin, ChainsMoveOn, FewArePending, HeadIsFirst};
ghost use Rattle.xr_balance.specs.Determined.{FreeIsNobodys, MapsAreDetermined, UnnamedFilesAgree};
ghost use Rattle.xr_balance.specs.ExchangeLaws.{ExchangeKeepsOwners, ExchangeMoves};
ghost use Rattle.xr_balance.specs.FirstGives.{FirstKeeps, FirstHolds};
ghost use Rattle.xr_balance.specs.Fresh.{FreshIsSettled};
ghost use Rattle.xr_balance.specs.Lanes.{
  IdleIsApart,
  IdleIsStaged,
  IdleMayChangeFiles,
  NothingIsHeld,
  OwnedIsUnstaged,
  TwoOwners,
};
ghost use Rattle.xr_balance.specs.Pieces.{PiecesAreDetermined, PiecesAreThere};
ghost use Rattle.xr_balance.specs.Ready.{FirstIsReady, LeastIsFirst, FewPairs};
ghost use Rattle.xr_balance.specs.RollLaws.{RollHolds, RollKeeps};
ghost use Rattle.xr_balance.specs.Rows.{ChainsAreShort, RowsAreChains};
ghost use Rattle.xr_balance.specs.Stagings.{StageKeeps, ReleaseKeeps, StageHolds};
ghost use Rattle.xr_balance.specs.Waiting.{FewBlocksWait, FirstGivesBack, RollGivesNoMoreBack};
ghost use Rattle.xr_balance.specs.Weights.{WeightsFall};

/// A roll of a work of any kind keeps the balance for the same maps, and what lanes hold.
pub fn rolls_keep_the_balance()
    ensures settled { RollKeeps }
    ensures lanes { RollHolds }
{}

/// Each roll makes the pending works weigh less, so that a chain ends.
pub fn rolls_come_to_an_end()
    ensures { WeightsFall }
{}

/// The first commit of a step by a lane without an open chain, which holds the step's files and has looked up what they map
/// there, keeps the balance for the maps with the step, and what lanes hold.
pub fn first_commits_keep_the_balance()
    ensures settled { FirstKeeps }
    ensures lanes { FirstHolds }
{}

/// A staging and the release of a run that was left staged keep the balance for the same maps.
pub fn stagings_keep_the_balance()
    ensures stage { StageKeeps }
    ensures release { ReleaseKeeps }
    ensures lanes { StageHolds }
{}

/// An exchange takes and brings what its two ranges hold, and each block keeps as many owners.
pub fn exchanges_are_balances()
    ensures moves { ExchangeMoves }
    ensures owners { ExchangeKeepsOwners }
{}

/// Two ranges of good maps give the roll of an exchange one list of works.
pub fn pieces_are_determined()
    ensures there { PiecesAreThere }
    ensures one { PiecesAreDetermined }
{}

/// The works with which each event begins are a chain, and a chain is short.
pub fn rows_are_chains()
    ensures chains { RowsAreChains }
    ensures short { ChainsAreShort }
{}

/// A roll moves its lane's chain on, a first commit begins one, and both leave the others; the head of a chain is a first
/// work, and few works are pending.
pub fn chains_move_on()
    ensures roll { ChainsMoveOn }
    ensures begin { ChainsBegin }
    ensures head { HeadIsFirst }
    ensures few { FewArePending }
{}

/// The first work of each chain is ready, the one with the least id is such a work, and no group has many owners and staged
/// blocks.
pub fn first_works_are_ready()
    ensures ready { FirstIsReady }
    ensures least { LeastIsFirst }
    ensures room { FewPairs }
{}

/// No pending work is on a file of a lane without a chain, nor on what is staged for it, and such a lane may take files and
/// give them back.
pub fn idle_lanes_are_apart()
    ensures apart { IdleIsApart }
    ensures staged { IdleIsStaged }
    ensures owned { OwnedIsUnstaged }
    ensures two { TwoOwners }
    ensures changes { IdleMayChangeFiles }
    ensures none { NothingIsHeld }
{}

/// Blocks and works stand for one list of maps at most; a file that no work names is in these as in the blocks, and a block
/// that is free is nobody's.
pub fn maps_are_determined()
    ensures maps { MapsAreDetermined }
    ensures files { UnnamedFilesAgree }
    ensures free { FreeIsNobodys }
{}

/// A fresh image stands for empty maps.
pub fn fresh_image_is_settled()
    ensures { FreshIsSettled }
{}

/// A group has few blocks that no file has and that aren't free: no more than the lanes have staged or are giving back. A roll
/// gives back no more than was given back before it, and a first commit no more than its step is long.
pub fn few_blocks_wait()
    ensures waiting { FewBlocksWait }
    ensures roll { RollGivesNoMoreBack }
    ensures first { FirstGivesBack }
{}
