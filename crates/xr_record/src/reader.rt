//! Reading a stream of operations, in pieces of any length.
ghost use Rattle.std.specs.Prelude.{◌≡◌, ◌<◌, ◌≤◌, ◌++◌, [], ℕ, List, IfOk, IfErr, OnOk, Some, None, Err, length, option_to_list, take};
ghost use Rattle.xr_record.specs.declared.entry.Entry.{Entry};
ghost use Rattle.xr_record.specs.declared.fault.FeedFault.{FeedFault};
ghost use Rattle.xr_record.specs.ReaderFields.{AwaitsMore, reader_state};
ghost use Rattle.xr_record.specs.Reading.{IsFaultOf, Reads, is_open};
ghost use Rattle.xr_record.specs.ReaderSteps.{FailsOn, TakesOn};

use crate::entry::Entry;
use crate::fault::FeedFault;
use crate::layout::OPERATION_BYTES;
use crate::reader_fields::{ReaderFields, grow, settle};
use crate::rules::Stage;
use std::alloc::Global;
use std::marker::Model;
use xr_base::NoMemory;

/// What was taken of a piece.
#[derive(Debug, Drop)]
struct Advance {
    /// So many bytes.
    taken: usize,
    /// What they end.
    entry: Option<Entry>,
}

/// Takes the bytes of at most one operation.
fn take_operation(
    reader: &mut ReaderFields,
    alloc: Global,
    piece: &[u8],
) -> Result<Advance, FeedFault>
    requires awaits { AwaitsMore reader.old }
    requires some { 0 < length piece.now }
    ensures awaits { IfOk result (λ _. AwaitsMore reader.new) }
    ensures count { IfOk result (λ a. (0 < a.taken) × (a.taken ≤ length piece.now)) }
    ensures reads { IfOk result (λ a. TakesOn (reader_state reader.old) (reader_state reader.new) (take a.taken piece.now) (option_to_list a.entry)) }
    ensures fault { IfErr result (FailsOn (reader_state reader.old) piece.now) }
{
    let taken = grow(reader, piece)?;
    let entry = settle(reader, alloc)?;
    Ok(Advance { taken, entry })
}

fn push_entry(entries: &mut Vec<Entry>, entry: Option<Entry>) -> Result<(), NoMemory>
    ensures { OnOk result (entries.new.items ≡ entries.old.items ++ option_to_list entry) }
{
    match entry {
        Some(entry) => {
            entries.push(entry)?;
            Ok(())
        }
        None => Ok(()),
    }
}

fn read(reader: &mut ReaderFields, alloc: Global, piece: &[u8]) -> Result<Vec<Entry>, FeedFault>
    requires { AwaitsMore reader.old }
    ensures awaits { IfOk result (λ _. AwaitsMore reader.new) }
    ensures reads { IfOk result (λ entries. TakesOn (reader_state reader.old) (reader_state reader.new) piece.now entries.items) }
    ensures fault { IfErr result (FailsOn (reader_state reader.old) piece.now) }
{
    let mut entries = Vec::new(alloc);
    let mut done = 0;
    while done < piece.len() {
        let advance = take_operation(reader, alloc, &piece[done..])?;
        push_entry(&mut entries, advance.entry)?;
        done += advance.taken;
    }
    Ok(entries)
}

/// A reader of a stream of operations. It keeps no more than the bytes since the last whole transaction.
#[derive(Debug, Drop)]
pub struct Reader {
    fields: ReaderFields,
    ended: Option<FeedFault>,
}

impl Model for Reader {
    ghost use Rattle.std.specs.Prelude.{◌≡◌, None};
    ghost use Rattle.xr_record.specs.Reading.{Reading};

    ghost Value = { Reading };

    ghost use Rattle.xr_record.specs.ReaderFields.{AwaitsMore, reader_state};

    ghost view = { λ r. record { held = reader_state r.fields; ended = r.ended } };

    ghost invariant = { λ r. r.ended ≡ None → AwaitsMore r.fields };
}

impl Reader {
    /// A reader at the start of a stream.
    pub fn new(alloc: Global) -> Result<Reader, NoMemory>
        ensures { IfOk result (Reads [] []) }
    {
        Ok(Reader {
            fields: ReaderFields {
                stage: Stage::Between,
                regions: Vec::new(alloc),
                header: Vec::with_capacity(alloc, OPERATION_BYTES)?,
                body: Vec::new(alloc),
                place: 0,
            },
            ended: None,
        })
    }

    /// Whether what was read ends within a transaction: it was begun, and no COMMIT has ended it.
    pub fn ends_open(&self) -> bool
        ensures { result ≡ is_open self.now.held.phase }
    {
        match self.fields.stage {
            Stage::Between => false,
            Stage::Begun { .. } | Stage::Inside { .. } | Stage::Cut { .. } => true,
        }
    }

    /// Reads the next piece of the stream, and answers the transactions and unmounts that became whole. After a fault it
    /// answers that fault again, whatever it is fed, and the entries that became whole in that piece are lost.
    pub fn feed(&mut self, alloc: Global, piece: &[u8]) -> Result<Vec<Entry>, FeedFault>
        ensures reads { IfOk result (λ entries. (before : List ℕ) (es : List Entry) → Reads before es self.old
            → Reads (before ++ piece.now) (es ++ entries.items) self.new) }
        ensures fault { IfErr result (λ fault. (before : List ℕ) (es : List Entry) → Reads before es self.old
            → IsFaultOf (before ++ piece.now) fault) }
        ensures ended { IfErr result (λ fault. self.new.ended ≡ Some fault) }
        ensures stays { (fault : FeedFault) → self.old.ended ≡ Some fault → (result ≡ Err fault) × (self.new ≡ self.old) }
    {
        if let Some(fault) = self.ended {
            return Err(fault);
        }
        match read(&mut self.fields, alloc, piece) {
            Ok(entries) => Ok(entries),
            Err(fault) => {
                self.ended = Some(fault);
                Err(fault)
            }
        }
    }
}
