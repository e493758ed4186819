//! What is so of chains and of what is committed, by the words alone.
ghost use Rattle.xr_chain.specs.ChainRoom.{ChainsHaveRoom};
ghost use Rattle.xr_chain.specs.CommittedLaws.{CommittedIsOfBlocks, ListedFilesAreMapped, ListedGroupsTell, LookupsAreFound, PutIsListed};
ghost use Rattle.xr_chain.specs.FirstRowLaws.{FirstRowsAreGiven};
ghost use Rattle.xr_chain.specs.LoggedLaws.{FilesLogChanges, GroupsLogChanges};
ghost use Rattle.xr_chain.specs.OwnerRecords.{OwnerRecordsAreFew};
ghost use Rattle.xr_chain.specs.ReadinessLaws.{FilesTellReadiness, GroupsTellReadiness};

use xr_group::groups_tell_records;

/// A chain has room for what its next roll leaves.
pub fn chains_have_room()
    ensures { ChainsHaveRoom }
{}

/// The works with which a step begins are those of the balance's first commits.
pub fn first_rows_are_given()
    ensures { FirstRowsAreGiven }
{}

/// A work is ready by what its file or its group holds where it is ready by all that is committed.
pub fn readiness_is_told()
    ensures files { FilesTellReadiness }
    ensures groups { GroupsTellReadiness }
{}

/// What is committed is a function of the blocks of files and groups, whatever they go back to. A listed file tells what is committed
/// at each offset, and a lookup in it that tells of a whole range does; and a listed group tells it of each block.
pub fn committed_is_told()
    ensures blocks { CommittedIsOfBlocks }
    ensures files { ListedFilesAreMapped }
    ensures lookups { LookupsAreFound }
    ensures groups { ListedGroupsTell }
    ensures put { PutIsListed }
{}

/// A transaction of the changed blocks of a file or a group makes of what was kept what is there now.
pub fn changes_are_logged()
    ensures files { FilesLogChanges }
    ensures groups { GroupsLogChanges }
{}

/// A group has no more records of owners than what is committed has pairs in it.
pub fn owner_records_are_few()
    ensures { OwnerRecordsAreFew }
{
    groups_tell_records();
}
