//! What is so of each log. The call does nothing.
ghost use Rattle.std.specs.Prelude.{◌≡◌, [], ◌∷◌, None};
ghost use Rattle.xr_log.specs.Held.{HasStates, LeavesCurrent, current, disk_of, held_of};

use crate::held::Log;
use xr_disk::Disk;

/// Of a log that has the one state and isn't down a crash does leave that state.
pub fn the_one_state_is_left<D: Disk>(log: &Log<D>)
    ensures { HasStates (D.view (disk_of log.now)) (held_of log.now) (current (held_of log.now) ∷ []) → (held_of log.now).down ≡ None
        → LeavesCurrent (D.view (disk_of log.now)) (held_of log.now) }
{}
