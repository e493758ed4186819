//! Each item with its bytes written out, each refusal, and each call once.

use crate::layout::LONGEST_REGION;
use crate::{
    CountKind, DoneOf, Item, ItemFault, MapKind, OwnKind, Placed, Trans, Work, follows, put, take,
};
use std::process::Abort;
use std::test::Fail;
use xr_base::geometry::{BLOCK_BYTES, OWN_COW};
use xr_base::{Addr, FileNo, Run, good_run};

const COUNT: &[u8] =
    b"\x42\x12\x01\x00\x01\x00\x00\x00\x05\x00\x00\x00\x00\x00\x00\x00\x00\x02\x00\x00\x00\x00\x00\x00\x04\x00\x00\x00\x01\x00\x00\x00";

const BUF: &[u8] =
    b"\x3C\x12\x02\x00\x00\x00\x08\x00\x48\x10\x00\x00\x00\x00\x00\x00\x01\x00\x00\x00\xFF\xFF\xFF\xFF";

const EFI: &[u8] =
    b"\x36\x12\x01\x00\x01\x00\x00\x00\x07\x00\x00\x00\x00\x00\x00\x00\x00\x0A\x00\x00\x00\x00\x00\x00\x03\x00\x00\x00\x00\x00\x00\x00";

const EFD: &[u8] =
    b"\x37\x12\x01\x00\x01\x00\x00\x00\x07\x00\x00\x00\x00\x00\x00\x00\x00\x0A\x00\x00\x00\x00\x00\x00\x03\x00\x00\x00\x00\x00\x00\x00";

const OWN: &[u8] =
    b"\x40\x12\x01\x00\x01\x00\x00\x00\x09\x00\x00\x00\x00\x00\x00\x00\x82\x00\x00\x00\x00\x00\x00\x00\
      \x01\x02\x00\x00\x00\x00\x00\x00\x04\x00\x00\x00\x00\x00\x00\x00\x02\x00\x00\x00\x04\x00\x00\x00";

const STAGED: &[u8] =
    b"\x40\x12\x01\x00\x01\x00\x00\x00\x0A\x00\x00\x00\x00\x00\x00\x00\xF7\xFF\xFF\xFF\xFF\xFF\xFF\xFF\
      \x00\x02\x00\x00\x00\x00\x00\x00\x00\x00\x00\x00\x00\x00\x00\x00\x00\x06\x00\x00\x07\x00\x00\x00";

const MAP: &[u8] =
    b"\x44\x12\x01\x00\x01\x00\x00\x00\xFF\xFF\xFF\xFF\xFF\xFF\xFF\x7F\x81\x00\x00\x00\x00\x00\x00\x00\
      \xFE\x1F\x00\x00\x00\x00\x00\x00\xFE\x01\x00\x00\x00\x00\x00\x00\x02\x00\x00\x00\x01\x00\x00\x00";

const SWAP: &[u8] =
    b"\x48\x12\x01\x00\x00\x00\x00\x00\x03\x00\x00\x00\x00\x00\x00\x00\x80\x00\x00\x00\x00\x00\x00\x00\
      \x9F\x00\x00\x00\x00\x00\x00\x00\x00\x00\x00\x00\x00\x00\x00\x00\x00\x01\x00\x00\x00\x00\x00\x00\
      \x00\x01\x00\x00\x00\x00\x00\x00";

const SHORT: &[u8] = b"\x3B\x12\x02\x00\x00\x00\x00\x00\x83\x00\x00\x00\x00\x00\x00\x00";

fn run(start: u32, len: u32) -> Run {
    Run {
        start: Addr(start),
        len,
    }
}

fn begun(id: u64, work: Work) -> Item {
    Item::Begin { id, work }
}

fn is_taken_and_put(rt: &impl Abort, bytes: &[u8], wanted: Item, following: usize) {
    let taken = take(bytes);
    assert_eq!(rt; taken, Ok(wanted));
    if let Ok(item) = taken {
        let mut out = [0xA5; LONGEST_REGION + 1];
        let length = put(&item, &mut out);
        assert_eq!(rt; &out[..length], bytes);
        assert_eq!(rt; out[length], 0xA5);
        assert_eq!(rt; follows(&item), following);
    }
}

#[test]
fn takes_and_puts_each_item(rt: HostRuntime) {
    is_taken_and_put(&rt, BUF, Item::Buf { sector: 4168 }, 4096);
    is_taken_and_put(&rt, SHORT, Item::Inode { ino: 131 }, 64);
    let free = run(2560, 3);
    is_taken_and_put(&rt, EFI, begun(7, Work::Free { run: free }), 0);
    let of = DoneOf::Efd { run: free };
    is_taken_and_put(&rt, EFD, Item::Done { id: 7, of }, 0);
    let unmapped = Work::Own {
        kind: OwnKind::UnmapShared,
        owner: 130,
        off: 4,
        run: run(513, 2),
    };
    is_taken_and_put(&rt, OWN, begun(9, unmapped), 0);
    let staged = Work::Own {
        kind: OwnKind::Alloc,
        owner: OWN_COW,
        off: 0,
        run: run(512, 1536),
    };
    is_taken_and_put(&rt, STAGED, begun(10, staged), 0);
    let increase = Work::Count {
        kind: CountKind::Increase,
        run: run(512, 4),
    };
    is_taken_and_put(&rt, COUNT, begun(5, increase), 0);
    let mapped = Work::Map {
        kind: MapKind::Map,
        file: FileNo(1),
        off: 510,
        run: run(8190, 2),
    };
    is_taken_and_put(&rt, MAP, begun(0x7FFF_FFFF_FFFF_FFFF, mapped), 0);
    let swapped = Work::Swap {
        file: FileNo(0),
        off: 0,
        other: FileNo(31),
        other_off: 256,
        len: 256,
    };
    is_taken_and_put(&rt, SWAP, begun(3, swapped), 0);
    for (code, of) in [
        (0x41, DoneOf::Rud),
        (0x43, DoneOf::Cud),
        (0x45, DoneOf::Bud),
        (0x49, DoneOf::Xmd),
    ] {
        let bytes = [code, 0x12, 1, 0, 0, 0, 0, 0, 0x83, 0, 0, 0, 0, 0, 0, 0];
        is_taken_and_put(&rt, &bytes, Item::Done { id: 131, of }, 0);
    }
}

/// The region with one other byte.
fn changed(rt: &impl Abort, bytes: &[u8], place: usize, byte: u8) -> Result<Item, ItemFault> {
    let mut region = [0; LONGEST_REGION];
    assert!(rt; bytes.len() <= LONGEST_REGION && place < bytes.len());
    region[..bytes.len()].copy_from_slice(bytes);
    region[place] = byte;
    take(&region[..bytes.len()])
}

#[test]
fn names_the_first_broken_rule(rt: HostRuntime) {
    let unknown = Err(ItemFault::ItemType { place: 0 });
    assert_eq!(rt; take(b"\x99\x99\x01\x00"), unknown);
    assert_eq!(rt; take(b"\x42\x12\x01"), unknown);
    assert_eq!(rt; take(&COUNT[..31]), Err(ItemFault::Size { place: 0 }));
    for (bytes, place, byte, field) in [
        (COUNT, 4, 2, 4),
        (COUNT, 8, 0, 8),
        (COUNT, 15, 0x80, 8),
        (COUNT, 17, 1, 16),
        (COUNT, 25, 6, 24),
        (COUNT, 28, 5, 28),
        (BUF, 5, 1, 4),
        (BUF, 6, 16, 6),
        (BUF, 8, 0x40, 8),
        (BUF, 20, 0, 20),
        (EFI, 30, 1, 30),
        (OWN, 16, 0xA0, 16),
        (OWN, 33, 2, 32),
        (OWN, 40, 0, 40),
        (OWN, 44, 3, 44),
        (OWN, 44, 7, 44),
        (STAGED, 32, 1, 32),
        (MAP, 32, 0xFF, 40),
        (SWAP, 6, 1, 6),
        (SWAP, 16, 0x9F, 0),
        (SWAP, 24, 0x80, 0),
        (SWAP, 49, 2, 48),
        (SHORT, 8, 0x7F, 8),
    ] {
        let taken = changed(&rt, bytes, place, byte);
        if field == 0 {
            assert!(rt; taken.is_ok(), "byte {place}");
        } else {
            let wanted = Err(ItemFault::Field { place: field });
            assert_eq!(rt; taken, wanted, "byte {place}");
        }
    }
    let regions = changed(&rt, COUNT, 2, 2);
    assert_eq!(rt; regions, Err(ItemFault::Size { place: 2 }));
}

#[test]
fn keeps_what_is_added(rt: HostRuntime) -> Result<(), Fail> {
    let mut trans = Trans::new(rt.alloc())?;
    let image = [0xA5; BLOCK_BYTES];
    trans.add_block(776, &image);
    trans.add_block(521, &image);
    let free = run(2560, 3);
    assert!(rt; good_run(&free));
    let work = Work::Free { run: free };
    trans.add_work(work);
    trans.add_done(7);
    for (logged, block) in trans.blocks().iter().zip([776, 521]) {
        assert_eq!(rt; logged.block, block);
        assert_eq!(rt; logged.image.as_slice(), image.as_slice());
    }
    assert_eq!(rt; trans.blocks().len(), 2);
    assert_eq!(rt; trans.works(), [work].as_slice());
    assert_eq!(rt; trans.done(), [7].as_slice());
    trans.clear();
    assert!(rt; trans.blocks().is_empty() && trans.works().is_empty() && trans.done().is_empty());
    let placed = Placed {
        slots: [0; 12],
        count: 0,
    };
    assert_eq!(rt; placed.slots.len(), 12);
    Ok(())
}
