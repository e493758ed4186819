//! That the numbers of items and transactions are those of the format.
ghost use Rattle.xr_items.specs.Limits.{AreItemLimits};

/// The numbers of items and transactions are these.
pub fn item_limits()
    ensures { AreItemLimits }
{}
