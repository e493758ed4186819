//! Marks on the blocks of a pool: how many there are, the places that have one, and the copy of marked blocks alone.
ghost use Rattle.std.specs.Prelude.{◌≡◌, ◌<◌, false, length, replicate, slice_index};
ghost use Rattle.xr_pool.specs.Marks.{AreSameUnmarked, marked};

use crate::overlay::Block;

/// How many marks there are.
pub(crate) fn count_marks(marks: &[bool]) -> usize
    ensures { result ≡ length (marked 0 marks.now) }
{
    let mut count = 0;
    for mark in marks {
        if *mark {
            count += 1;
        }
    }
    count
}

/// The place of a mark, by how many marks stand before it.
pub(crate) fn place_of_mark(marks: &[bool], i: usize) -> usize
    requires { i < length (marked 0 marks.now) }
    ensures place { result ≡ slice_index (marked 0 marks.now) i }
    ensures within { result < length marks.now }
{
    let mut left = i;
    for (place, mark) in marks.iter().enumerate() {
        if *mark {
            if left == 0 {
                return place;
            }
            left -= 1;
        }
    }
    unreachable!()
}

/// Makes the second blocks the same as the first ones, from which they differ at marks alone, and takes the marks away.
pub(crate) fn copy_marked(from: &[Block], to: &mut [Block], marks: &mut [bool])
    requires sizes { length to.old ≡ length from.now }
    requires marks { length marks.old ≡ length from.now }
    requires others { AreSameUnmarked from.now to.old marks.old }
    ensures copied { to.new ≡ from.now }
    ensures cleared { marks.new ≡ replicate (length marks.old) false }
{
    for place in 0..from.len() {
        if marks[place] {
            to[place] = from[place];
            marks[place] = false;
        }
    }
}
