//! That the numbers of headers are those of the format.
ghost use Rattle.xr_headers.specs.Limits.{AreHeaderLimits};

/// The numbers of headers, and of the record of a fresh log, are these.
pub fn header_limits()
    ensures { AreHeaderLimits }
{}
