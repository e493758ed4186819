//! Mapping steps, the changes of which a history of the file maps is made.
ghost use Rattle.std.specs.Prelude.{◌↔◌, IsTrue};
ghost use Rattle.xr_maps.specs.Steps.{Fits, IsFileRange};

use xr_base::geometry::{FILES, OFFSETS};
use xr_base::{Addr, FileNo, Run, good_run};

/// One change of the maps of the files. Offsets and lengths are in blocks.
#[derive(Clone, Copy, Debug, PartialEq, Eq)]
pub enum Step {
    /// Puts the blocks from `at` on at the offsets from `off` on.
    Remap {
        file: FileNo,
        off: u32,
        len: u32,
        at: Addr,
    },
    /// Leaves holes at the offsets from `off` on.
    Punch {
        file: FileNo,
        off: u32,
        len: u32,
    },
    /// Swaps what the offsets from `off` on hold with what those of the other file from `other_off` on hold, holes
    /// included. On one file the two ranges have no offset in common.
    Exchange {
        file: FileNo,
        off: u32,
        other: FileNo,
        other_off: u32,
        len: u32,
    },
}

fn is_file_range(file: FileNo, off: u32, len: u32) -> bool
    ensures { IsTrue result ↔ IsFileRange file off len }
{
    file.0 < FILES && len > 0 && off < OFFSETS && len <= OFFSETS - off
}

/// Whether the step names files and offsets that there are and, where it maps blocks, data blocks of one group, and
/// whether the ranges that it exchanges have no offset in common.
pub fn fits(step: &Step) -> bool
    ensures { IsTrue result ↔ Fits step.now }
{
    match *step {
        Step::Remap { file, off, len, at } => {
            is_file_range(file, off, len) && good_run(&Run { start: at, len })
        }
        Step::Punch { file, off, len } => is_file_range(file, off, len),
        Step::Exchange {
            file,
            off,
            other,
            other_off,
            len,
        } => {
            is_file_range(file, off, len)
                && is_file_range(other, other_off, len)
                && (file != other || off + len <= other_off || other_off + len <= off)
        }
    }
}
