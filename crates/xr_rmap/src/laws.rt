//! What the pairs of a tree of owners say of its records.
ghost use Rattle.xr_rmap.specs.Pairs.{NoMoreRecordsThanPairs, PairsDetermineRecords, PairsHaveOneRecord, RecordsAreMaximal};

/// The records of a tree of owners are as long as its pairs let them be on either side, no two say one pair, no others say
/// the same pairs, and there are no more of them than pairs.
pub fn records_follow_from_pairs()
    ensures maximal { RecordsAreMaximal }
    ensures single { PairsHaveOneRecord }
    ensures determined { PairsDetermineRecords }
    ensures few { NoMoreRecordsThanPairs }
{}
