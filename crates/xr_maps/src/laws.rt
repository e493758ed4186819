//! The maps determine their records, so that a list that has been compared with them is the one list; and what steps do to what maps hold.
ghost use Rattle.xr_maps.specs.RecordLaws.{ExtentsAreDetermined, OwnersAreDetermined, SharedAreDetermined, FreeAreDetermined};
ghost use Rattle.xr_maps.specs.StepLaws.{FileChanges, PunchTakes, RemapPuts, ExchangeSwaps, StepsLeaveGoodMaps, OwnersAreCounted, MapsAreOne};

/// No two lists are the extents of one file, or the reverse, the reference or the free records of one group.
pub fn records_are_determined()
    ensures extents { ExtentsAreDetermined }
    ensures owners { OwnersAreDetermined }
    ensures shared { SharedAreDetermined }
    ensures free { FreeAreDetermined }
{}

/// What a step takes out of the maps and what it puts in, that it leaves good maps, that the sums over files and offsets are
/// the numbers of owners, and that maps which hold the same are one.
pub fn steps_are_balances()
    ensures changes { FileChanges }
    ensures punch { PunchTakes }
    ensures remap { RemapPuts }
    ensures exchange { ExchangeSwaps }
    ensures good { StepsLeaveGoodMaps }
    ensures counted { OwnersAreCounted }
    ensures one { MapsAreOne }
{}
