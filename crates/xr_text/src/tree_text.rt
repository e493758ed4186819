//! The printed text of a tree of each group. After want of memory nothing is known of the text.
ghost use Rattle.std.specs.Prelude.{◌≡◌, ◌++◌, OnOk};
ghost use Rattle.std.specs.List.{flat_map};
ghost use Rattle.std.specs.String.{string_bytes};
ghost use Rattle.xr_text.specs.RecordText.{free_line, owner_line, shared_line};
ghost use Rattle.xr_text.specs.TreeText.{trees_text};

use crate::record_text::{push_free_line, push_owner_line, push_shared_line};
use std::alloc::AllocError;
use xr_base::Run;
use xr_check::{CountTree, FreeTree, GroupTree, OwnerTree};
use xr_group::Group;
use xr_maps::{Counted, Rev};

/// A tree of a group whose records are printed, a line each.
pub trait PrintedTree: GroupTree {
    ghost use Rattle.std.specs.Prelude.{ℕ, ◌<◌, List, length};

    ghost line: { Self.Record → List ℕ };

    /// Appends the line of a record.
    fn push_line(text: &mut String, held: &Self::Record) -> Result<(), AllocError>
        ensures { OnOk result (string_bytes text.new ≡ string_bytes text.old ++ line held.now) };

    ghost some: { (r : Self.Record) → 0 < length (line r) };
}

impl PrintedTree for OwnerTree {
    ghost use Rattle.xr_text.specs.TextLaws.{owner_line_some};

    ghost line = { owner_line };

    ghost some = { owner_line_some };

    fn push_line(text: &mut String, held: &Rev) -> Result<(), AllocError> {
        push_owner_line(text, held)
    }
}

/// The shared runs of a group, and behind them its staged ones.
impl PrintedTree for CountTree {
    ghost use Rattle.xr_text.specs.TextLaws.{shared_line_some};

    ghost line = { shared_line };

    ghost some = { shared_line_some };

    fn push_line(text: &mut String, held: &Counted) -> Result<(), AllocError> {
        push_shared_line(text, held)
    }
}

impl PrintedTree for FreeTree {
    ghost use Rattle.xr_text.specs.TextLaws.{free_line_some};

    ghost line = { free_line };

    ghost some = { free_line_some };

    fn push_line(text: &mut String, held: &Run) -> Result<(), AllocError> {
        push_free_line(text, held)
    }
}

/// Appends the records of a group's tree.
fn push_tree<T: PrintedTree>(text: &mut String, group: &Group) -> Result<(), AllocError>
    ensures { OnOk result (string_bytes text.new ≡ string_bytes text.old ++ flat_map T.line (T.records group.now)) }
{
    group.is_group();
    let mut last = None;
    while let Some(record) = T::next(group, last) {
        T::push_line(text, &record)?;
        last = Some(record);
    }
    Ok(())
}

/// Appends the records of the trees of one kind, group after group.
pub fn push_trees<T: PrintedTree>(text: &mut String, groups: &[Group]) -> Result<(), AllocError>
    ensures { OnOk result (string_bytes text.new ≡ string_bytes text.old ++ trees_text T.records T.line groups.now) }
{
    for group in groups {
        push_tree::<T>(text, group)?;
    }
    Ok(())
}
