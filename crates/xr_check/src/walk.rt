//! Where the records of a tree of a group first differ from a list.
ghost use Rattle.std.specs.Prelude.{◌≡◌, ◌↔◌, IsTrue, MatchOption};
ghost use Rattle.xr_check.specs.Differences.{DiffersAt, IsLesserStart};
ghost use Rattle.xr_check.specs.TreeOrders.{IsTreeOrder};
ghost use Rattle.xr_group.specs.Next.{IsNextOf};

use xr_base::Addr;
use xr_group::Group;

/// A tree of a group, by the records that it holds.
pub trait GroupTree {
    ghost use Rattle.std.specs.Prelude.{List};
    ghost use Rattle.xr_base.specs.declared.address.Addr.{Addr};
    ghost use Rattle.xr_group.specs.Group.{GroupState};

    type Record: Copy;

    ghost records: { GroupState → List Self.Record };

    ghost before: { Self.Record → Self.Record → Type 0 };

    ghost start: { Self.Record → Addr };

    /// The first record after another, or the first of all.
    fn next(group: &Group, after: Option<Self::Record>) -> Option<Self::Record>
        ensures { IsNextOf before (records group.now) after result };

    fn is_same(r: &Self::Record, s: &Self::Record) -> bool
        ensures { IsTrue result ↔ (r.now ≡ s.now) };

    fn comes_before(r: &Self::Record, s: &Self::Record) -> bool
        ensures { IsTrue result ↔ before r.now s.now };

    /// The first block of a record.
    fn start_of(r: &Self::Record) -> Addr
        ensures { result ≡ start r.now };

    ghost ordered: { IsTreeOrder records before start };
}

/// The start of the lesser of two records, or `None` where they are the same.
fn lesser_start<T: GroupTree>(held: &T::Record, wanted: &T::Record) -> Option<Addr>
    ensures { MatchOption result (held.now ≡ wanted.now) (IsLesserStart T.before T.start held.now wanted.now) }
{
    if T::is_same(held, wanted) {
        None
    } else if T::comes_before(wanted, held) {
        Some(T::start_of(wanted))
    } else {
        Some(T::start_of(held))
    }
}

/// The start of the lesser record at the first place where the tree differs from the list, if it does.
pub(crate) fn first_difference<T: GroupTree>(group: &Group, defined: &[T::Record]) -> Option<Addr>
    ensures { MatchOption result (T.records group.now ≡ defined.now) (DiffersAt T.before T.start (T.records group.now) defined.now) }
{
    group.is_group();
    let mut last = None;
    for wanted in defined {
        let Some(held) = T::next(group, last) else {
            return Some(T::start_of(wanted));
        };
        if let Some(key) = lesser_start::<T>(&held, wanted) {
            return Some(key);
        }
        last = Some(held);
    }
    match T::next(group, last) {
        Some(held) => Some(T::start_of(&held)),
        None => None,
    }
}
