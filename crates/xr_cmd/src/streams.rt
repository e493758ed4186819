//! Whole texts from a source and to a sink, a piece at a time.
ghost use Rattle.std.specs.Prelude.{◌≡◌, ◌<◌, ◌≤◌, [], length, vec_len, Err, IfOk, OnOk, OnErr};
ghost use Rattle.xr_base.specs.Cause.{Rose, HasCause};
ghost use Rattle.xr_disk.specs.Stream.{Took, TakesFront};
ghost use Rattle.xr_cmd.specs.declared.streams.ReadFault.TheVariants.{Source, NoMemory};
ghost use Rattle.xr_cmd.specs.Streams.{StaysWithin, PutsAll, PutsSomeFront, IsTakenFront};

use std::alloc::{AllocError, Global};
use thiserror::Error;
use xr_base::Fault;
use xr_disk::{Sink, Source};

/// How many bytes are taken from a source at once, at most.
const PIECE_BYTES: usize = 65_536;

/// Why a source wasn't read.
#[derive(Clone, Copy, Debug, PartialEq, Eq, Error)]
pub enum ReadFault {
    /// The source failed.
    #[error("the source failed")]
    Source,
    /// Want of memory.
    #[error("out of memory")]
    NoMemory,
}

impl From<Fault> for ReadFault {
    ghost from_gives = { λ _ fault. fault ≡ Source };

    fn from(_fault: Fault) -> ReadFault {
        ReadFault::Source
    }
}

impl From<AllocError> for ReadFault {
    ghost from_gives = { λ _ fault. fault ≡ NoMemory };

    fn from(_error: AllocError) -> ReadFault {
        ReadFault::NoMemory
    }
}

pub fn new_buffer(alloc: Global) -> Result<Vec<u8>, AllocError>
    ensures { IfOk result (λ buffer. vec_len buffer ≡ PIECE_BYTES) }
{
    vec![in alloc; 0; PIECE_BYTES]
}

/// Takes bytes into the front of the buffer, at most so many. Their count is 0 only at the end.
pub fn take_at_most<S: Source>(source: &mut S, out: &mut [u8], most: usize) -> Result<usize, Fault>
    requires room { 0 < length out.old }
    requires some { 0 < most }
    ensures front { IfOk result (λ n. TakesFront (S.left source.old) (S.left source.new) n out.new) }
    ensures bound { IfOk result (λ n. n ≤ most) }
    ensures cause { HasCause result (S.faults source.old) (S.faults source.new) }
{
    let wanted = out.len().min(most);
    source.take(&mut out[..wanted])
}

/// Reads a source to its end, or until there are `most` bytes. Where it answers `ReadFault::Source` the source failed.
pub fn read_front<S: Source>(
    alloc: Global,
    source: &mut S,
    most: usize,
) -> Result<Vec<u8>, ReadFault>
    ensures front { IfOk result (λ bytes. IsTakenFront (S.left source.old) most bytes.items) }
    ensures taken { IfOk result (λ bytes. Took (S.left source.old) (S.left source.new) bytes.items) }
    ensures bound { IfOk result (λ bytes. vec_len bytes ≤ most) }
    ensures limit { StaysWithin (Rose (S.faults source.old) (S.faults source.new)) most (S.left source.old) (S.left source.new) }
    ensures kept { S.faults source.old ≤ S.faults source.new }
    ensures cause { result ≡ Err ReadFault.Source → Rose (S.faults source.old) (S.faults source.new) }
    ensures uncounted { OnOk result (S.faults source.new ≡ S.faults source.old) }
{
    let mut storage = new_buffer(alloc)?;
    let buffer = storage.as_mut_slice();
    let mut bytes = Vec::new(alloc);
    while bytes.len() < most {
        let n = take_at_most(source, buffer, most - bytes.len())?;
        if n == 0 {
            return Ok(bytes);
        }
        bytes.extend_from_slice(&buffer[..n])?;
    }
    Ok(bytes)
}

/// Puts all of the bytes. Where there are none it makes no call. After a fault the sink holds some of the first of them,
/// but not all.
pub fn put_all<O: Sink>(sink: &mut O, bytes: &[u8]) -> Result<(), Fault>
    ensures ok { OnOk result (PutsAll (O.held sink.old) (O.held sink.new) bytes.now) }
    ensures err { OnErr result (PutsSomeFront (O.held sink.old) (O.held sink.new) bytes.now) }
    ensures cause { HasCause result (O.faults sink.old) (O.faults sink.new) }
    ensures none { bytes.now ≡ [] → sink.new ≡ sink.old }
{
    let mut done = 0;
    while done < bytes.len() {
        done += sink.put(&bytes[done..])?;
    }
    Ok(())
}
