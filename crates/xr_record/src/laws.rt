//! Laws on the words of the stream: they determine one another, so that what a reader answers is the one thing that it may
//! answer, and their numbers are those of the format.
ghost use Rattle.xr_record.specs.Limits.{AreOperationLimits};
ghost use Rattle.xr_record.specs.StreamLaws.{IsBadInOneWay, IsGoodOrBad, IsOneReading};

/// A stream has one reading, in pieces, in what is open and in its rest; it isn't both right and bad; and where it is bad,
/// it is so at one place and by one rule.
pub fn streams_are_read_in_one_way()
    ensures reading { IsOneReading }
    ensures good_or_bad { IsGoodOrBad }
    ensures bad { IsBadInOneWay }
{}

/// The numbers of operations are these.
pub fn operation_limits()
    ensures { AreOperationLimits }
{}
