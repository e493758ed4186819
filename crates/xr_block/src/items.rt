//! Items of one size, one after the other in some bytes: one more, one less, and some of those of two rows.
ghost use Rattle.std.specs.Prelude.{◌≡◌, ◌+◌, ◌-◌, ◌≤◌, ◌++◌, length};
ghost use Rattle.xr_base.specs.Image.{part};
ghost use Rattle.xr_block.specs.TreeBlock.{zero_filled};
ghost use Rattle.xr_block.specs.ItemBytes.{with_gap, with_item, without_item};

/// Moves the items from a place to an end back, so that there is room for an item of a size.
pub(crate) fn insert_gap(bytes: &mut [u8], at: usize, end: usize, size: usize)
    requires order { at ≤ end }
    requires room { end + size ≤ length bytes.old }
    ensures { bytes.new ≡ with_gap at end size bytes.old }
{
    bytes.copy_within(at..end, at + size);
}

/// Puts an item at a place. The items after it, up to an end, move back.
pub(crate) fn put_item(bytes: &mut [u8], at: usize, end: usize, item: &[u8])
    requires order { at ≤ end }
    requires room { end + length item.now ≤ length bytes.old }
    ensures { bytes.new ≡ with_item at end item.now bytes.old }
{
    insert_gap(bytes, at, end, item.len());
    bytes[at..at + item.len()].copy_from_slice(item);
}

/// Cuts an item out. The items after it, up to an end, move up, and what they leave is zero.
pub(crate) fn remove_item(bytes: &mut [u8], at: usize, end: usize, size: usize)
    requires order { at + size ≤ end }
    requires within { end ≤ length bytes.old }
    ensures { bytes.new ≡ without_item at end size bytes.old }
{
    bytes.copy_within(at + size..end, at);
    bytes[end - size..end].fill(0);
}

/// Writes some bytes, others after them, and zeros.
pub(crate) fn put_both(out: &mut [u8], front: &[u8], after: &[u8])
    requires { length front.now + length after.now ≤ length out.old }
    ensures { out.new ≡ zero_filled (length out.old) (front.now ++ after.now) }
{
    let (first, rest) = out.split_at_mut(front.len());
    let (second, zeros) = rest.split_at_mut(after.len());
    first.copy_from_slice(front);
    second.copy_from_slice(after);
    zeros.fill(0);
}

/// Writes the bytes from a place to another of two rows of bytes, one after the other, with zeros after them.
pub(crate) fn gather_items(out: &mut [u8], front: &[u8], after: &[u8], from: usize, to: usize)
    requires order { from ≤ to }
    requires within { to ≤ length front.now + length after.now }
    requires room { to - from ≤ length out.old }
    ensures { out.new ≡ zero_filled (length out.old) (part from (to - from) (front.now ++ after.now)) }
{
    let end = front.len();
    put_both(
        out,
        &front[from.min(end)..to.min(end)],
        &after[from.max(end) - end..to.max(end) - end],
    );
}
