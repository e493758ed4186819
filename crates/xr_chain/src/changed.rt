//! The changed blocks of a file or a group, put into a transaction.
ghost use Rattle.std.specs.Prelude.{◌≡◌, ◌≤◌, [], length};
ghost use Rattle.xr_chain.specs.Events.{logged_file, logged_group, trans_with};
ghost use Rattle.xr_items.specs.Transactions.{no_trans};
ghost use Rattle.xr_items.specs.declared.layout.TheConstants.{TRANS_BLOCKS};

use xr_bmap::File;
use xr_group::Group;
use xr_items::Trans;

/// Adds the changed blocks of a file, which are few, to an empty transaction.
pub(crate) fn add_file(file: &File, trans: &mut Trans)
    requires few { length file.now.changed ≤ TRANS_BLOCKS }
    requires empty { trans.old ≡ no_trans }
    ensures { trans.new ≡ trans_with (logged_file file.now) [] [] }
{
    file.is_file();
    for i in 0..file.changed() {
        let (block, image) = file.change(i);
        trans.add_block(block, image);
    }
}

/// Adds the changed blocks of a group, which are few, to an empty transaction.
pub(crate) fn add_group(group: &Group, trans: &mut Trans)
    requires few { length group.now.changed ≤ TRANS_BLOCKS }
    requires empty { trans.old ≡ no_trans }
    ensures { trans.new ≡ trans_with (logged_group group.now) [] [] }
{
    group.is_group();
    for i in 0..group.changed() {
        let (block, image) = group.change(i);
        trans.add_block(block, image);
    }
}
