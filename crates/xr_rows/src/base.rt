//! Limits of a script, and the small calls of the base crates.

use std::test::Fail;
use xr_base::{Addr, FileNo, GroupNo, Run, crc32c, crc32c_without, good_run, group_of, is_data};
use xr_cmd::{MAX_BYTES, MAX_LINES, ScriptFault, parse_steps};
use xr_disk::{Sink, Source, StdSink, StdSource};
use xr_maps::{Maps, Step, fits};

#[test]
fn tells_data_addresses_and_good_runs(rt: HostRuntime) {
    for (address, wanted) in [
        (0, false),
        (511, false),
        (512, true),
        (2047, true),
        (2048, false),
        (2560, true),
        (8191, true),
        (8192, false),
        (8704, false),
    ] {
        assert_eq!(rt; is_data(Addr(address)), wanted, "{address}");
    }
    for (start, len, wanted) in [
        (512, 1536, true),
        (512, 1537, false),
        (2047, 1, true),
        (2047, 2, false),
        (512, 0, false),
        (8191, u32::MAX, false),
    ] {
        assert_eq!(rt;
            good_run(&Run {
                start: Addr(start),
                len
            }),
            wanted,
            "{start} {len}"
        );
    }
    assert!(rt; is_data(Addr(6656)));
    assert_eq!(rt; group_of(Addr(6656)), GroupNo(3));
}

/// Bytes and their CRC32C.
const CHECKSUMS: [(&[u8], u32); 7] = [
    (b"", 0),
    (b"123456789", 0xE306_9283),
    (b"The quick brown fox jumps over the lazy dog", 0x2262_0404),
    (&[0; 32], 0x8A91_36AA),
    (&[0xFF; 32], 0x62A8_AB43),
    (
        b"\x00\x01\x02\x03\x04\x05\x06\x07\x08\x09\x0A\x0B\x0C\x0D\x0E\x0F\x10\x11\x12\x13\x14\x15\x16\x17\x18\x19\x1A\x1B\x1C\x1D\x1E\x1F",
        0x46DD_794E,
    ),
    (
        b"\x1F\x1E\x1D\x1C\x1B\x1A\x19\x18\x17\x16\x15\x14\x13\x12\x11\x10\x0F\x0E\x0D\x0C\x0B\x0A\x09\x08\x07\x06\x05\x04\x03\x02\x01\x00",
        0x113F_DB5C,
    ),
];

#[test]
fn computes_checksums(rt: HostRuntime) {
    for (bytes, wanted) in CHECKSUMS {
        assert_eq!(rt; crc32c(bytes), wanted, "{bytes:?}");
    }
    assert_eq!(rt; crc32c_without(b"123456789", 3), 0x47C7_D3EC);
}

#[test]
fn applies_steps(rt: HostRuntime) -> Result<(), Fail> {
    let mut maps = Maps::new(rt.alloc())?;
    let remap = Step::Remap {
        file: FileNo(2),
        off: 510,
        len: 2,
        at: Addr(600),
    };
    let punch = Step::Punch {
        file: FileNo(2),
        off: 511,
        len: 1,
    };
    assert!(rt; fits(&remap));
    assert!(rt; fits(&punch));
    maps.apply(&remap);
    assert_eq!(rt; maps.at(FileNo(2), 511), Some(Addr(601)));
    maps.apply(&punch);
    assert_eq!(rt; maps.at(FileNo(2), 510), Some(Addr(600)));
    assert_eq!(rt; maps.at(FileNo(2), 511), None);
    Ok(())
}

#[test]
fn keeps_the_limits_of_scripts(rt: HostRuntime) -> Result<(), Fail> {
    let mut lines = vec![in rt.alloc(); b'\n'; MAX_LINES as usize]?;
    assert_eq!(rt; parse_steps(rt.alloc(), &lines)?.len(), 0);
    lines.push(b'#')?;
    assert_eq!(rt;
        parse_steps(rt.alloc(), &lines).err(),
        Some(ScriptFault::Line {
            number: MAX_LINES + 1
        })
    );
    let mut comment = vec![in rt.alloc(); b'#'; MAX_BYTES]?;
    assert_eq!(rt; parse_steps(rt.alloc(), &comment)?.len(), 0);
    comment.push(b'\n')?;
    assert_eq!(rt;
        parse_steps(rt.alloc(), &comment).err(),
        Some(ScriptFault::Line { number: 1 })
    );
    Ok(())
}

#[test]
fn reads_and_writes_through_std(rt: HostRuntime) -> Result<(), Fail> {
    let mut source = StdSource::new(b"abc".as_slice());
    let mut buffer = [0u8; 2];
    assert_eq!(rt; source.take(&mut buffer), Ok(2));
    assert_eq!(rt; &buffer, b"ab");
    assert_eq!(rt; source.take(&mut buffer), Ok(1));
    assert_eq!(rt; source.take(&mut buffer), Ok(0));
    let mut sink = StdSink::new(Vec::new(rt.alloc()));
    assert_eq!(rt; sink.put(b"abc"), Ok(3));
    Ok(())
}
