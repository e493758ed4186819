//! Each header and each kind of fresh block, compared with bytes written out field by field; their checksums were computed
//! by another program.

use crate::codec::seal;
use crate::layout::{BLOCK_CRC, CORE_BYTES, CORE_CRC, FREE_MAP_BYTES};
use crate::{
    Core, GroupHead, HeaderFault, Super, fresh_block, put_core, put_group, put_super, take_core,
    take_core_bytes, take_group, take_super,
};
use std::process::Abort;
use uuid::Uuid;
use xr_base::geometry::BLOCK_BYTES;
use xr_base::{FileNo, GroupNo};

/// The bytes of a block from some places on. All others are zero.
type Rows = &'static [(usize, &'static [u8])];

const CYCLE: u32 = 0x0A0B_0C0D;

const ZEROS: Rows = &[];

const SUPER: Rows = &[
    (0, b"\x58\x52\x53\x42"),
    (4, b"\x00\x00\x00\x01"),
    (8, b"\x00\x00\x10\x00"),
    (12, b"\x00\x00\x23\x08"),
    (
        16,
        b"\x00\x11\x22\x33\x44\x55\x66\x77\x88\x99\xaa\xbb\xcc\xdd\xee\xff",
    ),
    (32, b"\x00\x00\x00\x08"),
    (36, b"\x00\x00\x10\x00"),
    (40, b"\x00\x00\x00\x20"),
    (44, b"\x00\x00\x02\x08"),
    (48, b"\x00\x00\x00\x04"),
    (52, b"\x00\x00\x03\x08"),
    (56, b"\x00\x00\x08\x00"),
    (60, b"\x00\x00\x02\x00"),
    (4092, b"\x17\x33\x91\xa6"),
];

const GROUP: Rows = &[
    (0, b"\x58\x52\x47\x48"),
    (4, b"\x00\x00\x00\x01"),
    (8, b"\x00\x00\x00\x03"),
    (
        16,
        b"\x00\x11\x22\x33\x44\x55\x66\x77\x88\x99\xaa\xbb\xcc\xdd\xee\xff",
    ),
    (
        32,
        b"\x00\x00\x00\x09\x00\x00\x01\x02\x00\x00\x01\xff\x00\x00\x00\x01",
    ),
    (
        48,
        b"\x00\x00\x00\x00\x00\x00\x00\x01\x01\x02\x03\x04\x00\x00\x00\x02",
    ),
    (
        64,
        b"\xa4\x01\x00\x00\x00\x00\x00\x00\x00\x00\x00\x00\x00\x00\x00\x00",
    ),
    (
        112,
        b"\x00\x00\x00\x00\x00\x00\x00\x00\x00\x00\x00\x00\x00\x00\x00\x80",
    ),
    (4092, b"\xad\xab\x3f\xf8"),
];

const CORE: Rows = &[
    (0, b"\x58\x52\x46\x43"),
    (4, b"\x00\x00\x00\x01"),
    (8, b"\x00\x00\x00\x00\x00\x00\x00\x9f"),
    (
        16,
        b"\x00\x11\x22\x33\x44\x55\x66\x77\x88\x99\xaa\xbb\xcc\xdd\xee\xff",
    ),
    (32, b"\x00\x00\x00\x07"),
    (36, b"\xff\xff\xff\xfe"),
    (40, b"\x00\x00\x00\x82"),
    (60, b"\x0a\x89\xbb\x6a"),
];

const FRESH_LOG: Rows = &[
    (0, b"\xfe\xed\xba\xbe"),
    (4, b"\x0a\x0b\x0c\x0d"),
    (8, b"\x00\x00\x00\x02"),
    (12, b"\x00\x00\x00\x14"),
    (16, b"\x0a\x0b\x0c\x0d\x00\x00\x00\x00"),
    (24, b"\x0a\x0b\x0c\x0d\x00\x00\x00\x00"),
    (36, b"\xff\xff\xff\xff"),
    (40, b"\x00\x00\x00\x01"),
    (300, b"\x00\x00\x00\x01"),
    (
        304,
        b"\x00\x11\x22\x33\x44\x55\x66\x77\x88\x99\xaa\xbb\xcc\xdd\xee\xff",
    ),
    (320, b"\x00\x00\x80\x00"),
    (512, b"\x0a\x0b\x0c\x0d"),
    (
        516,
        b"\x00\x00\x00\x08\xaa\x20\x00\x00\x6e\x55\x00\x00\x00\x00\x00\x00",
    ),
    (32, b"\x1c\xd5\xe2\x64"),
];

const FRESH_CORE: Rows = &[
    (0, b"\x58\x52\x46\x43"),
    (4, b"\x00\x00\x00\x01"),
    (8, b"\x00\x00\x00\x00\x00\x00\x00\x80"),
    (
        16,
        b"\x00\x11\x22\x33\x44\x55\x66\x77\x88\x99\xaa\xbb\xcc\xdd\xee\xff",
    ),
    (32, b"\x00\x00\x00\x01"),
    (40, b"\x00\x00\x00\xfc"),
    (60, b"\x5f\xa6\xd4\x34"),
];

const FRESH_TREE: Rows = &[
    (0, b"\x42\x4d\x41\x33"),
    (8, b"\xff\xff\xff\xff\xff\xff\xff\xff"),
    (16, b"\xff\xff\xff\xff\xff\xff\xff\xff"),
    (24, b"\x00\x00\x00\x00\x00\x00\x10\x48"),
    (
        40,
        b"\x00\x11\x22\x33\x44\x55\x66\x77\x88\x99\xaa\xbb\xcc\xdd\xee\xff",
    ),
    (56, b"\x00\x00\x00\x00\x00\x00\x00\x80"),
    (64, b"\x2e\x08\xa4\xc3"),
];

const FRESH_GROUP: Rows = &[
    (0, b"\x58\x52\x47\x48"),
    (4, b"\x00\x00\x00\x01"),
    (
        16,
        b"\x00\x11\x22\x33\x44\x55\x66\x77\x88\x99\xaa\xbb\xcc\xdd\xee\xff",
    ),
    (
        32,
        b"\x00\x00\x00\x01\x00\x00\x00\x02\x00\x00\x00\x03\x00\x00\x00\x04",
    ),
    (
        64,
        b"\xe0\xff\xff\xff\xff\xff\xff\xff\xff\xff\xff\xff\xff\xff\xff\xff",
    ),
    (
        80,
        b"\xff\xff\xff\xff\xff\xff\xff\xff\xff\xff\xff\xff\xff\xff\xff\xff",
    ),
    (
        96,
        b"\xff\xff\xff\xff\xff\xff\xff\xff\xff\xff\xff\xff\xff\xff\xff\xff",
    ),
    (
        112,
        b"\xff\xff\xff\xff\xff\xff\xff\xff\xff\xff\xff\xff\xff\xff\xff\xff",
    ),
    (4092, b"\xf7\x11\x75\xf7"),
];

const FRESH_BY_BLOCK: Rows = &[
    (0, b"\x41\x42\x33\x42"),
    (6, b"\x00\x01"),
    (8, b"\xff\xff\xff\xff"),
    (12, b"\xff\xff\xff\xff"),
    (16, b"\x00\x00\x00\x00\x00\x00\x18\x48"),
    (
        32,
        b"\x00\x11\x22\x33\x44\x55\x66\x77\x88\x99\xaa\xbb\xcc\xdd\xee\xff",
    ),
    (56, b"\x00\x00\x02\x00\x00\x00\x06\x00"),
    (52, b"\xaf\xc0\xb8\x72"),
];

const FRESH_BY_SIZE: Rows = &[
    (0, b"\x41\x42\x33\x43"),
    (6, b"\x00\x01"),
    (8, b"\xff\xff\xff\xff"),
    (12, b"\xff\xff\xff\xff"),
    (16, b"\x00\x00\x00\x00\x00\x00\xd8\x50"),
    (
        32,
        b"\x00\x11\x22\x33\x44\x55\x66\x77\x88\x99\xaa\xbb\xcc\xdd\xee\xff",
    ),
    (48, b"\x00\x00\x00\x03"),
    (56, b"\x00\x00\x02\x00\x00\x00\x06\x00"),
    (52, b"\xc8\x44\xb7\x27"),
];

const FRESH_REVERSE: Rows = &[
    (0, b"\x52\x4d\x42\x33"),
    (8, b"\xff\xff\xff\xff"),
    (12, b"\xff\xff\xff\xff"),
    (16, b"\x00\x00\x00\x00\x00\x00\x18\x58"),
    (
        32,
        b"\x00\x11\x22\x33\x44\x55\x66\x77\x88\x99\xaa\xbb\xcc\xdd\xee\xff",
    ),
    (52, b"\x3d\x26\x08\x9e"),
];

const FRESH_REFERENCE: Rows = &[
    (0, b"\x52\x33\x46\x43"),
    (8, b"\xff\xff\xff\xff"),
    (12, b"\xff\xff\xff\xff"),
    (16, b"\x00\x00\x00\x00\x00\x00\x18\x60"),
    (
        32,
        b"\x00\x11\x22\x33\x44\x55\x66\x77\x88\x99\xaa\xbb\xcc\xdd\xee\xff",
    ),
    (52, b"\x75\x80\x3f\x67"),
];

fn identifier() -> Uuid {
    Uuid::from_bytes([
        0x00, 0x11, 0x22, 0x33, 0x44, 0x55, 0x66, 0x77, 0x88, 0x99, 0xAA, 0xBB, 0xCC, 0xDD, 0xEE,
        0xFF,
    ])
}

fn written_out(rt: &impl Abort, rows: Rows) -> [u8; BLOCK_BYTES] {
    let mut block = [0; BLOCK_BYTES];
    for (place, bytes) in rows {
        assert!(rt; *place <= BLOCK_BYTES && bytes.len() <= BLOCK_BYTES - *place);
        block[*place..*place + bytes.len()].copy_from_slice(bytes);
    }
    block
}

/// The core that the front of a block holds.
fn core_within(block: &[u8; BLOCK_BYTES]) -> Result<Core, usize> {
    take_core_bytes(&block[..CORE_BYTES], FileNo(31), &identifier())
}

#[test]
fn writes_and_takes_headers(rt: HostRuntime) {
    let uuid = identifier();
    let mut block = [0xA5; BLOCK_BYTES];
    let superblock = Super { uuid };
    put_super(&superblock, &mut block);
    assert_eq!(rt; block.as_slice(), written_out(&rt, SUPER).as_slice());
    assert_eq!(rt; take_super(&block), Ok(superblock));
    let mut free = [0; FREE_MAP_BYTES];
    free[0] = 0xA4;
    free[1] = 0x01;
    free[63] = 0x80;
    let head = GroupHead {
        group: GroupNo(3),
        uuid,
        roots: [9, 0x102, 511, 1],
        levels: [0, 1, 0x0102_0304, 2],
        free,
    };
    put_group(&head, &mut block);
    assert_eq!(rt; block.as_slice(), written_out(&rt, GROUP).as_slice());
    assert_eq!(rt; take_group(&block, GroupNo(3), &uuid), Ok(head));
    let core = Core {
        ino: 159,
        uuid,
        root: 7,
        level: 0xFFFF_FFFE,
        free: 0x82,
    };
    put_core(&core, &mut block);
    assert_eq!(rt; block.as_slice(), written_out(&rt, CORE).as_slice());
    assert_eq!(rt; take_core(&block, FileNo(31), &uuid), Ok(core));
    assert_eq!(rt; core_within(&block), Ok(core));
}

#[test]
fn writes_fresh_blocks(rt: HostRuntime) {
    let uuid = identifier();
    for (number, rows) in [
        (0, SUPER),
        (7, ZEROS),
        (8, FRESH_LOG),
        (9, ZEROS),
        (520, FRESH_CORE),
        (521, FRESH_TREE),
        (522, ZEROS),
        (776, FRESH_GROUP),
        (777, FRESH_BY_BLOCK),
        (776 + 2048 * 3 + 2, FRESH_BY_SIZE),
        (779, FRESH_REVERSE),
        (780, FRESH_REFERENCE),
        (781, ZEROS),
        (8967, ZEROS),
    ] {
        assert!(rt; number < 8968);
        let mut block = [0xA5; BLOCK_BYTES];
        fresh_block(number, &uuid, CYCLE, &mut block);
        assert_eq!(rt;
            block.as_slice(),
            written_out(&rt, rows).as_slice(),
            "block {number}"
        );
    }
}

/// A block with one other byte.
fn changed(rt: &impl Abort, rows: Rows, place: usize, byte: u8) -> [u8; BLOCK_BYTES] {
    let mut block = written_out(rt, rows);
    assert!(rt; place < BLOCK_BYTES);
    block[place] = byte;
    block
}

fn seal_core(block: &mut [u8; BLOCK_BYTES]) {
    seal(&mut block[..CORE_BYTES], CORE_CRC);
}

#[test]
fn names_the_first_wrong_field(rt: HostRuntime) {
    let uuid = identifier();
    for (place, field) in [
        (1, 0),
        (5, 4),
        (15, 12),
        (33, 32),
        (63, 60),
        (64, 64),
        (4000, 4000),
    ] {
        let mut block = changed(&rt, SUPER, place, 0x7F);
        if place > 3 {
            assert_eq!(rt;
                take_super(&block),
                Err(HeaderFault {
                    block: 0,
                    field: 4092
                })
            );
        }
        seal(&mut block, BLOCK_CRC);
        assert_eq!(rt;
            take_super(&block),
            Err(HeaderFault { block: 0, field }),
            "byte {place}"
        );
    }
    for (place, byte, field) in [
        (0, 0, 0),
        (10, 1, 8),
        (13, 1, 13),
        (31, 1, 16),
        (35, 0, 32),
        (38, 2, 36),
        (64, 0xA5, 64),
        (200, 1, 200),
    ] {
        let mut block = changed(&rt, GROUP, place, byte);
        seal(&mut block, BLOCK_CRC);
        let wanted = HeaderFault {
            block: 776 + 2048 * 3,
            field,
        };
        assert_eq!(rt;
            take_group(&block, GroupNo(3), &uuid),
            Err(wanted),
            "byte {place}"
        );
    }
    for (place, byte, field) in [
        (3, 0, 0),
        (15, 0x80, 8),
        (16, 1, 16),
        (35, 8, 32),
        (42, 1, 40),
        (43, 0x83, 40),
        (50, 1, 50),
        (64, 1, 64),
        (4095, 1, 4095),
    ] {
        let mut block = changed(&rt, CORE, place, byte);
        seal_core(&mut block);
        let wanted = HeaderFault {
            block: 520 + 8 * 31,
            field,
        };
        assert_eq!(rt;
            take_core(&block, FileNo(31), &uuid),
            Err(wanted),
            "byte {place}"
        );
    }
}
