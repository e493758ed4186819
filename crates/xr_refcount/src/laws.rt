//! What records and counts say of each other.
ghost use Rattle.xr_refcount.specs.Counts.{CountsAreOfRecords, CountsDetermineRecords};

/// The one record that holds a block tells its count and whether it is staged. A block has the count 1 and isn't staged
/// exactly where no record holds it.
pub fn counts_are_of_records()
    ensures { CountsAreOfRecords }
{}

/// Records that keep the rules of their tree are determined by the counts and the staged blocks.
pub fn counts_determine_records()
    ensures { CountsDetermineRecords }
{}
