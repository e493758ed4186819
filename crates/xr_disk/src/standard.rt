//! The trusted edge: a source over any reader of std, and a sink over any writer.
ghost use Rattle.std.specs.Prelude.{◌≡◌, ℕ, ◌<◌, ◌≤◌, None, length, IfOk, OnErr, take};
ghost use Rattle.std.specs.Io.KnownBytes.{Appends, Consumes, IsAtEnd};
ghost use Rattle.xr_base.specs.Cause.{HasCause};
ghost use Rattle.xr_disk.specs.Stream.{TakesFront, AppendsFront, Keeps};
ghost use Rattle.xr_disk.specs.Plan.{next_count};
ghost use Rattle.xr_disk.specs.Standard.{reader_of, source_faults, writer_of, sink_faults};

use crate::{Sink, Source};
use std::io::{ErrorKind, Read, Write};
use xr_base::Fault;

/// A source over a reader.
#[derive(Drop)]
pub struct StdSource<T> {
    reader: T,
    faults: u64,
}

impl<T> StdSource<T> {
    /// A source over the reader, with no fault so far.
    pub fn new(reader: T) -> StdSource<T>
        ensures reader { reader_of result ≡ reader }
        ensures faults { source_faults result ≡ 0 }
    {
        StdSource { reader, faults: 0 }
    }
}

impl<T: Read> Source for StdSource<T> {
    // What the reader tells. A file or a terminal tells nothing.
    ghost left = { λ s. T.remaining s.reader };

    ghost faults = { λ s. s.faults };

    /// Reads once, and again where a signal interrupts. Any other error is a fault.
    fn take(&mut self, out: &mut [u8]) -> Result<usize, Fault>
        requires { 0 < length out.old }
        ensures front { IfOk result (λ n. TakesFront
            (T.remaining (reader_of self.old)) (T.remaining (reader_of self.new)) n out.new) }
        ensures cause { HasCause result (source_faults self.old) (source_faults self.new) }

        // Exactly what is counted.
        ensures err { OnErr result (source_faults self.new ≡ next_count (source_faults self.old)) }
    {
        match read_retrying(&mut self.reader, out) {
            Ok(n) => Ok(n),
            Err(fault) => {
                self.faults = self.faults.saturating_add(1);
                Err(fault)
            }
        }
    }
}

/// Reads once, and again where a signal interrupts.
pub(crate) fn read_retrying<T: Read>(reader: &mut T, out: &mut [u8]) -> Result<usize, Fault>
    requires { 0 < length out.old }
    ensures fits { IfOk result (λ n. n ≤ length out.new) }
    ensures read { IfOk result (λ n.
        Consumes (T.remaining reader.old) (T.remaining reader.new) (take n out.new)) }
    ensures end { IfOk result (λ n. n ≡ 0 → IsAtEnd (T.remaining reader.new)) }
{
    for _ in 0..u64::MAX {
        match reader.read(out) {
            Ok(n) => return Ok(n),
            Err(e) => {
                if e.kind() != ErrorKind::Interrupted {
                    return Err(Fault);
                }
            }
        }
    }
    Err(Fault)
}

/// A sink over a writer.
#[derive(Drop)]
pub struct StdSink<W> {
    writer: W,
    faults: u64,
}

impl<W> StdSink<W> {
    /// A sink over the writer, with no fault so far.
    pub fn new(writer: W) -> StdSink<W>
        ensures writer { writer_of result ≡ writer }
        ensures faults { sink_faults result ≡ 0 }
    {
        StdSink { writer, faults: 0 }
    }
}

impl<W: Write> Sink for StdSink<W> {
    // Bytes whose flush failed may stand in the writer, so the sink tells nothing of what it holds.
    ghost held = { λ _. None };

    ghost faults = { λ s. s.faults };

    /// Writes once, and again where a signal interrupts, and flushes what was written. Any other
    /// error is a fault, and so is a writer that takes nothing.
    fn put(&mut self, bytes: &[u8]) -> Result<usize, Fault>
        requires { 0 < length bytes.now }
        ensures front { IfOk result (λ n. AppendsFront None None n bytes.now) }
        ensures none { OnErr result (Keeps None None) }
        ensures cause { HasCause result (sink_faults self.old) (sink_faults self.new) }

        // Exactly what is counted, and what the writer got.
        ensures err { OnErr result (sink_faults self.new ≡ next_count (sink_faults self.old)) }
        ensures written { IfOk result (λ n. Appends
            (W.contents (writer_of self.old)) (W.contents (writer_of self.new)) (take n bytes.now)) }
    {
        match write_flushed(&mut self.writer, bytes) {
            Ok(n) => Ok(n),
            Err(fault) => {
                self.faults = self.faults.saturating_add(1);
                Err(fault)
            }
        }
    }
}

fn write_flushed<W: Write>(writer: &mut W, bytes: &[u8]) -> Result<usize, Fault>
    ensures some { IfOk result (λ n. 0 < n) }
    ensures fits { IfOk result (λ n. n ≤ length bytes.now) }
    ensures written { IfOk result (λ n.
        Appends (W.contents writer.old) (W.contents writer.new) (take n bytes.now)) }
{
    let n = write_retrying(writer, bytes)?;
    if n == 0 || writer.flush().is_err() {
        return Err(Fault);
    }
    Ok(n)
}

fn write_retrying<W: Write>(writer: &mut W, bytes: &[u8]) -> Result<usize, Fault>
    ensures fits { IfOk result (λ n. n ≤ length bytes.now) }
    ensures written { IfOk result (λ n.
        Appends (W.contents writer.old) (W.contents writer.new) (take n bytes.now)) }
{
    for _ in 0..u64::MAX {
        match writer.write(bytes) {
            Ok(n) => return Ok(n),
            Err(e) => {
                if e.kind() != ErrorKind::Interrupted {
                    return Err(Fault);
                }
            }
        }
    }
    Err(Fault)
}
