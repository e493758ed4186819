//! Rows of records and of streams. Their bytes were worked out by hand, or made by the calls that are proved.
ghost use Rattle.std.specs.Prelude.{◌≡◌, ◌+◌, ◌*◌, ◌<◌, ◌≤◌, IfOk, drop, length};
ghost use Rattle.xr_base.specs.Image.{part};
ghost use Rattle.xr_record.specs.Record.{IsGoodHead, sectors_of, padded_body};

use super::*;
use crate::bytes::put;
use crate::layout::{COMMIT, OPERATION_BYTES, START, TRANSACTION_CLIENT};
use crate::sealing::sectors_of;
use byteorder::{ByteOrder, LittleEndian};
use std::alloc::{AllocError, Global};
use std::process::Abort;
use std::test::Fail;
use uuid::Uuid;
use xr_base::crc32c_without;
use xr_base::geometry::SECTOR_BYTES;
use xr_base::layout::{MAX_BODY_BYTES, RECORD_CRC_PLACE};

fn head_of(len: u32) -> Head
    requires some { 0 < len }
    requires most { len ≤ 32768 }
    ensures good { IsGoodHead result }
    ensures len { result.len ≡ len }
{
    Head {
        lsn: Lsn {
            cycle: 3,
            sector: 17,
        },
        tail: Lsn {
            cycle: 2,
            sector: 4000,
        },
        prev: 4090,
        ops: 7,
        len,
        uuid: Uuid::NAMESPACE_DNS,
    }
}

/// Room for a header, and the body with its padding.
fn unsealed(alloc: Global, body: &[u8], len: u32) -> Result<Vec<u8>, AllocError>
    requires { length body.now ≡ len }
    ensures room { IfOk result (λ out. length out.items ≡ 512 + 512 * sectors_of len) }
    ensures padding { IfOk result (λ out. drop 512 out.items ≡ padded_body (part 512 len out.items)) }
{
    let mut out = vec![in alloc; 0; SECTOR_BYTES + SECTOR_BYTES * sectors_of(len)]?;
    put(&mut out, SECTOR_BYTES, body);
    Ok(out)
}

fn sealed(rt: &impl Abort, alloc: Global, len: u32) -> Result<Vec<u8>, AllocError> {
    assert!(rt; len > 0 && len <= MAX_BODY_BYTES as u32);
    let body = vec![in alloc; 0xA5; len as usize]?;
    let head = head_of(len);
    let mut out = unsealed(alloc, &body, len)?;
    seal(&head, &mut out);
    Ok(out)
}

fn opened(rt: &impl Abort, record: &mut [u8]) -> Result<Head, SealFault> {
    assert!(rt; record.len() % SECTOR_BYTES == 0 && record.len() >= SECTOR_BYTES);
    assert!(rt; record.len() <= SECTOR_BYTES + MAX_BODY_BYTES);
    unseal(record, 17)
}

#[test]
fn seals_and_unseals(rt: HostRuntime) -> Result<(), Fail> {
    for len in [1, 508, 509, 512, 513, 32_768] {
        assert!(rt; len > 0 && len <= 32_768);
        let mut record = sealed(&rt, rt.alloc(), len)?;
        assert!(rt; record.len() > 32);
        assert_eq!(rt;
            &record[..12],
            [0xFE, 0xED, 0xBA, 0xBE, 0, 0, 0, 3, 0, 0, 0, 2].as_slice()
        );
        assert_eq!(rt;
            &record[16..32],
            [0, 0, 0, 3, 0, 0, 0, 17, 0, 0, 0, 2, 0, 0, 0x0F, 0xA0].as_slice()
        );
        assert_eq!(rt; opened(&rt, &mut record), Ok(head_of(len)), "{len}");
        let body = vec![in rt.alloc(); 0xA5; len as usize]?;
        assert!(rt; SECTOR_BYTES + len as usize <= record.len());
        assert_eq!(rt;
            &record[SECTOR_BYTES..SECTOR_BYTES + len as usize],
            body.as_slice(),
            "{len}"
        );
    }
    Ok(())
}

/// What is refused: where a byte is changed, to what, whether the record is then sealed again, and the answer.
const REFUSALS: [(usize, u8, bool, SealFault); 13] = [
    (0, 0, true, SealFault::Magic { sector: 17 }),
    (11, 1, true, SealFault::Version { sector: 17 }),
    (303, 2, true, SealFault::Version { sector: 17 }),
    (322, 0, true, SealFault::Version { sector: 17 }),
    (13, 1, true, SealFault::Length { sector: 17 }),
    (14, 5, true, SealFault::Length { sector: 17 }),
    (40, 9, false, SealFault::Checksum { sector: 17 }),
    (23, 18, true, SealFault::Place { sector: 17 }),
    (7, 4, true, SealFault::Place { sector: 17 }),
    (27, 9, true, SealFault::Place { sector: 17 }),
    (515, 4, true, SealFault::Place { sector: 17 }),
    (330, 1, true, SealFault::Place { sector: 17 }),
    (1535, 1, true, SealFault::Place { sector: 17 }),
];

#[test]
fn refuses_by_the_first_broken_rule(rt: HostRuntime) -> Result<(), Fail> {
    for (place, value, again, wanted) in REFUSALS {
        let mut record = sealed(&rt, rt.alloc(), 600)?;
        assert!(rt; place < record.len() && record.len() == 1536);
        record[place] = value;
        if again {
            let checksum = crc32c_without(&record, RECORD_CRC_PLACE);
            LittleEndian::write_u32(&mut record[RECORD_CRC_PLACE..], checksum);
        }
        let before = record.clone()?;
        assert_eq!(rt; opened(&rt, &mut record), Err(wanted), "byte {place}");
        assert_eq!(rt; record, before, "byte {place}");
    }
    Ok(())
}

#[test]
fn reads_an_unmount_byte_by_byte(rt: HostRuntime) -> Result<(), Fail> {
    let bytes = [
        0, 0, 0, 0, 0, 0, 0, 8, 0xAA, 0x20, 0, 0, 0x6E, 0x55, 0, 0, 0, 0, 0, 0,
    ];
    let mut reader = Reader::new(rt.alloc())?;
    for (i, byte) in bytes.iter().enumerate() {
        let entries = reader.feed(rt.alloc(), &[*byte])?;
        assert_eq!(rt; entries.len(), usize::from(i == 19), "byte {i}");
        assert!(rt; entries.iter().all(|entry| matches!(entry, Entry::Unmount)));
    }
    assert!(rt; !reader.ends_open());
    Ok(())
}

const BEGIN: &[u8] = &[0, 0, 0, 1, 0, 0, 0, 0, 0x69, 1, 0, 0];

const HEADER: &[u8] = &[
    0, 0, 0, 1, 0, 0, 0, 16, 0x69, 0, 0, 0, 0x4E, 0x41, 0x52, 0x54, 40, 0, 0, 0, 1, 0, 0, 0, 1, 0,
    0, 0,
];

const END: &[u8] = &[0, 0, 0, 1, 0, 0, 0, 0, 0x69, 2, 0, 0];

/// What is bad: operations that are right, one that isn't, and the rule that it breaks.
const BAD: [(&[u8], &[u8], OpKind); 9] = [
    (
        &[],
        &[0, 0, 0, 1, 0, 0, 0, 0, 0x6A, 1, 0, 0],
        OpKind::Client,
    ),
    (
        &[],
        &[0, 0, 0, 0, 0, 0, 0, 8, 0xAA, 1, 0, 0],
        OpKind::Client,
    ),
    (&[], END, OpKind::Flags),
    (&[], &[0, 0, 0, 1, 0, 0, 0, 0, 0x69, 1, 0, 1], OpKind::Flags),
    (
        BEGIN,
        &[0, 0, 0, 2, 0, 0, 0, 16, 0x69, 0, 0, 0],
        OpKind::Tid,
    ),
    (
        &[],
        &[0, 0, 0, 1, 0, 0, 0, 4, 0x69, 1, 0, 0],
        OpKind::Length,
    ),
    (
        BEGIN,
        &[
            0, 0, 0, 1, 0, 0, 0, 16, 0x69, 0, 0, 0, 0x4E, 0x41, 0x52, 0x55, 40, 0, 0, 0, 1, 0, 0,
            0, 1, 0, 0, 0,
        ],
        OpKind::Header,
    ),
    (
        &[],
        &[
            0, 0, 0, 0, 0, 0, 0, 8, 0xAA, 0x20, 0, 0, 0x6E, 0x55, 0, 0, 0, 0, 0, 1,
        ],
        OpKind::Header,
    ),
    (HEADER, END, OpKind::Count),
];

#[test]
fn faults_by_the_first_broken_rule(rt: HostRuntime) -> Result<(), Fail> {
    for (right, wrong, kind) in BAD {
        let mut reader = Reader::new(rt.alloc())?;
        let mut place = right.len() as u64;
        if kind == OpKind::Count {
            reader.feed(rt.alloc(), BEGIN)?;
            assert!(rt; reader.ends_open());
            place = 40;
        }
        assert_eq!(rt; reader.feed(rt.alloc(), right)?.len(), 0);
        let fault = FeedFault::Op { place, kind };
        assert_eq!(rt; reader.feed(rt.alloc(), wrong).err(), Some(fault));
        assert_eq!(rt; reader.feed(rt.alloc(), BEGIN).err(), Some(fault));
    }
    Ok(())
}

/// A packer with so much room.
fn with_room(rt: &impl Abort, alloc: Global, room: usize) -> Result<Packer, AllocError> {
    let mut packer = Packer::new(alloc)?;
    assert!(rt; room <= 4096);
    let filler = vec![in alloc; 0; MAX_BODY_BYTES - OPERATION_BYTES - room]?;
    assert_eq!(rt;
        packer.push(9, TRANSACTION_CLIENT, 0, &filler, 0),
        Some(filler.len())
    );
    Ok(packer)
}

/// Pushes of operations, each with where it begins and stops in its region; and the bytes that they add.
fn packed(
    rt: &impl Abort,
    alloc: Global,
    room: usize,
    pushes: &[(u8, &[u8], usize, usize)],
) -> Result<Vec<u8>, AllocError> {
    assert!(rt; room <= 4096);
    let mut packer = with_room(rt, alloc, room)?;
    for (flags, region, from, stop) in pushes {
        assert!(rt; *from < region.len() || (*from == 0 && region.is_empty()));
        assert_eq!(rt;
            packer.push(5, TRANSACTION_CLIENT, *flags, region, *from),
            Some(*stop)
        );
    }
    assert!(rt; MAX_BODY_BYTES - room <= packer.body().len());
    Vec::from_slice(alloc, &packer.body()[MAX_BODY_BYTES - room..])
}

#[test]
fn reads_a_transaction_in_any_pieces(rt: HostRuntime) -> Result<(), Fail> {
    let header = [0x4E, 0x41, 0x52, 0x54, 40, 0, 0, 0, 5, 0, 0, 0, 5, 0, 0, 0];
    let buffer = [0x3C, 0x12, 2, 0, 8, 8, 8, 8];
    let block = vec![in rt.alloc(); 0x77; 4096]?;
    let done = [0x43, 0x12, 1, 0, 9, 9];
    let odd = [1, 2, 0, 0];
    let one = [0xFF];
    let mut stream = packed(
        &rt,
        rt.alloc(),
        2000,
        &[
            (START, &[], 0, 0),
            (0, &header, 0, 16),
            (0, &buffer, 0, 8),
            (0, &block, 0, 1928),
        ],
    )?;
    stream.extend_from_slice(&packed(&rt, rt.alloc(), 1012, &[(0, &block, 1928, 2928)])?)?;
    stream.extend_from_slice(&packed(
        &rt,
        rt.alloc(),
        3000,
        &[
            (0, &block, 2928, 4096),
            (0, &done, 0, 6),
            (0, &odd, 0, 4),
            (0, &one, 0, 1),
            (COMMIT, &[], 0, 0),
        ],
    )?)?;
    assert!(rt; stream.len() > 3021);
    assert_eq!(rt;
        [stream[69], stream[2009], stream[3021]],
        [0x04, 0x0C, 0x18]
    );
    let wanted: [&[u8]; 5] = [&buffer, &block, &done, &odd, &one];
    for size in [stream.len(), 1, 12, 13, 4097] {
        assert!(rt; size > 0);
        let mut reader = Reader::new(rt.alloc())?;
        let mut found: u32 = 0;
        for piece in stream.chunks(size) {
            for entry in &reader.feed(rt.alloc(), piece)? {
                let Entry::Trans { tid, regions } = entry else {
                    return Err(Fail::from("an unmount"));
                };
                assert_eq!(rt; (*tid, regions.len()), (5, 5));
                for (i, region) in wanted.iter().enumerate() {
                    assert!(rt; i < regions.len());
                    assert_eq!(rt; regions.at(i), *region, "region {i} in pieces of {size}");
                }
                found = found.saturating_add(1);
            }
        }
        assert_eq!(rt; found, 1, "pieces of {size}");
    }
    Ok(())
}
