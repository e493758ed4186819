//! What is so of each image, whoever reads it. The calls do nothing.
ghost use Rattle.xr_check.specs.LoadLaws.{CleanIsTaken, DirtyIsAlone, DirtyIsOne, LayerIsOne, LogRefusalIsOne, VerdictIsOne};
ghost use Rattle.xr_check.specs.VerdictLaws.{VerdictsAreDetermined};

use xr_group::refused_are_no_groups;
use xr_scan::refusals_are_exact;

/// No two verdicts are those of the same maps and groups: what `judge` answers is the only one.
pub fn verdicts_are_determined()
    ensures { VerdictsAreDetermined }
{}

/// No two verdicts are those of one image: what `check` answers is the only one.
pub fn images_have_one_verdict()
    ensures { VerdictIsOne }
{}

/// An image that is loaded isn't refused, and one that is refused is so in one way: it is in use, or it breaks a rule in one layer.
/// Which rule of a file or of a group it breaks, and in which block, is as exact as opening these tells it.
pub fn load_refusals_are_exact()
    ensures taken { CleanIsTaken }
    ensures dirty { DirtyIsOne }
    ensures alone { DirtyIsAlone }
    ensures layer { LayerIsOne }
    ensures log { LogRefusalIsOne }
{
    refusals_are_exact();
    refused_are_no_groups();
}
