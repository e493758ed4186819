//! Whether all blocks of a run are staged, or none is, and how many owners they may have.
ghost use Rattle.std.specs.Prelude.{◌≡◌, ◌↔◌, false, IsTrue};
ghost use Rattle.xr_chain.specs.Readiness.{AreCountedBelow, IsBelow};
ghost use Rattle.xr_group.specs.Group.{IsRunOf};
ghost use Rattle.xr_group.specs.Sets.{AreCountedIn};

use crate::parts::back_of;
use xr_base::Run;
use xr_group::Group;

fn is_below(limit: Option<u32>, count: u32) -> bool
    ensures { IsTrue result ↔ IsBelow limit count }
{
    match limit {
        Some(limit) => count < limit,
        None => true,
    }
}

/// Whether each block of the run is staged, or none is, as is asked, and each count is below the limit, where there is one.
pub(crate) fn all_counted(group: &Group, run: &Run, staged: bool, limit: Option<u32>) -> bool
    requires { IsRunOf group.now run.now }
    ensures { IsTrue result ↔ AreCountedBelow group.now run.now staged limit }
{
    let mut rest = *run;
    'parts: loop {
        let part = group.first_equal(&rest);
        if part.staged != staged || !is_below(limit, part.count) {
            return false;
        }
        if part.run.len == rest.len {
            return true;
        }
        rest = back_of(&rest, part.run.len);
    }
}

/// Whether no block of the run has a record of counts.
pub(crate) fn none_counted(group: &Group, run: &Run) -> bool
    requires { IsRunOf group.now run.now }
    ensures { IsTrue result ↔ AreCountedIn group.now run.now 1 false }
{
    let part = group.first_equal(run);
    part.run.len == run.len && part.count == 1 && !part.staged
}
