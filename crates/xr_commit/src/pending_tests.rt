//! Which intents of a log are pending.

use crate::{Pending, pending_works};
use std::test::Fail;
use xr_base::{Addr, FileNo, Run};
use xr_items::{CountKind, DoneOf, Item, Work};

#[test]
fn passes_over_what_a_later_item_of_its_kind_ends(rt: HostRuntime) -> Result<(), Fail> {
    let run = Run {
        start: Addr(512),
        len: 2,
    };
    let free = Work::Free { run };
    let count = Work::Count {
        kind: CountKind::Increase,
        run,
    };
    let swap = Work::Swap {
        file: FileNo(0),
        off: 0,
        other: FileNo(1),
        other_off: 4,
        len: 2,
    };
    let begun = |id, work| Item::Begin { id, work };
    let done = |id, of| Item::Done { id, of };
    let first = vec![in rt.alloc();
        done(3, DoneOf::Xmd),
        begun(1, free),
        begun(2, count),
        begun(3, swap),
    ]?;
    let second = vec![in rt.alloc();
        Item::Buf { sector: 4168 },
        done(1, DoneOf::Rud),
        done(2, DoneOf::Cud),
        done(9, DoneOf::Bud),
        begun(4, count),
    ]?;
    let lists = vec![in rt.alloc(); first, second]?;
    let works = pending_works(rt.alloc(), &lists)?;
    let waiting = [(1, free), (3, swap), (4, count)].map(|(id, work)| Pending { id, work });
    assert_eq!(rt; works.as_slice(), waiting.as_slice());
    Ok(())
}
