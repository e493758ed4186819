//! What rows share: a command is run over objects in memory, and what it gives is compared.

use std::alloc::{AllocError, Global};
use std::process::Abort;
use std::test::Fail;
use std::thread::Threads;
use xr_cmd::xreflink;
use xr_disk::{FileDisk, MemDisk, MemSink, MemSource};

/// Bytes of an image.
const IMAGE_BYTES: usize = 36_732_928;

/// A disk over no file.
pub(crate) fn no_disk(rt: &HostRuntime) -> Result<FileDisk<HostRuntime>, AllocError> {
    Ok(FileDisk::new(rt.clone()?, String::new(rt.alloc()), false))
}

/// What a run ended with and wrote is what is wanted. The row tells which run it was.
pub(crate) fn compare(
    rt: &impl Abort,
    row: &[&str],
    status: u8,
    written: &[u8],
    wanted: (u8, &str),
) {
    assert_eq!(rt; status, wanted.0, "{row:?}");
    assert_eq!(rt; written, wanted.1.as_bytes(), "{row:?}");
}

/// A script, and the calls of the source and of the sink that fail.
#[derive(Clone, Copy)]
pub(crate) struct Input<'a> {
    pub(crate) script: &'a str,
    pub(crate) source_fails: &'a [u64],
    pub(crate) sink_fails: &'a [u64],
}

/// A script that is read and answered without a fault.
pub(crate) fn script(script: &str) -> Input<'_> {
    Input {
        script,
        source_fails: &[],
        sink_fails: &[],
    }
}

/// A command that makes no call on its disk ends with a status, and writes a text.
pub(crate) fn gives<R: Abort + Threads + Sync + AllocGlobal>(
    rt: &R,
    row: &[&str],
    disk: FileDisk<HostRuntime>,
    words: &[&str],
    input: Input<'_>,
    wanted: (u8, &str),
) -> Result<(), AllocError> {
    let alloc = rt.alloc();
    let bytes = Vec::from_slice(alloc, input.script.as_bytes())?;
    let mut source = MemSource::new(bytes, Vec::from_slice(alloc, input.source_fails)?);
    let mut sink = MemSink::new(alloc, 1 << 20, Vec::from_slice(alloc, input.sink_fails)?)?;
    let ended = xreflink(rt, alloc, words, &mut source, &mut sink, disk);
    compare(rt, row, ended.status, sink.bytes(), wanted);
    Ok(())
}

/// A disk of zeros.
pub(crate) fn blank(
    alloc: Global,
    fails: &[u64],
    stop: Option<u64>,
    room_calls: u32,
    room_bytes: u64,
) -> Result<MemDisk, Fail> {
    let image = vec![in alloc; 0; IMAGE_BYTES]?;
    let fails = Vec::from_slice(alloc, fails)?;
    Ok(MemDisk::new(alloc, image, fails, stop, room_calls, room_bytes)?)
}

/// A command over a disk in memory ends with a status, and writes a text. The answer is the disk.
pub(crate) fn leaves<R: Abort + Threads + Sync + AllocGlobal>(
    rt: &R,
    disk: MemDisk,
    words: &[&str],
    wanted: (u8, &str),
) -> Result<MemDisk, AllocError> {
    let alloc = rt.alloc();
    let mut source = MemSource::new(Vec::new(alloc), Vec::new(alloc));
    let mut out = MemSink::new(alloc, 1 << 10, Vec::new(alloc))?;
    let ended = xreflink(rt, alloc, words, &mut source, &mut out, disk);
    compare(rt, words, ended.status, out.bytes(), wanted);
    Ok(ended.disk)
}
