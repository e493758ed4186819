//! Packing operations into the body of a record.
ghost use Rattle.std.specs.Prelude.{◌≡◌, ◌⊎◌, ◌-◌, ◌*◌, ◌<◌, ◌≤◌, ◌↔◌, ◌++◌, ◌∷◌, [], IsTrue, IfOk, MatchOption, length};
ghost use Rattle.byteorder.specs.Endian.{big_bytes};
ghost use Rattle.xr_record.specs.Packing.{HasNoRoom, Pushes, PushesAreOperations, part_flags, room_in};

use crate::layout::{
    CLIENT_PLACE, CONTINUE, FLAGS_PLACE, LAST_FLAGS, MIDDLE_FLAGS, OPERATION_BYTES,
    OPERATION_LEN_PLACE,
};
use byteorder::{BigEndian, ByteOrder};
use std::alloc::Global;
use std::marker::Model;
use xr_base::NoMemory;
use xr_base::layout::MAX_BODY_BYTES;

/// The body of a record that grows by an operation at a time. Its memory is all taken when it is made.
#[derive(Drop)]
pub struct Packer {
    body: Vec<u8>,
    ops: u32,
}

impl Model for Packer {
    ghost use Rattle.std.specs.Prelude.{◌*◌, ◌≤◌, vec_capacity, vec_len};
    ghost use Rattle.xr_base.specs.declared.layout.TheConstants.{MAX_BODY_BYTES};
    ghost use Rattle.xr_record.specs.PackerFields.{IsPacking};
    ghost use Rattle.xr_record.specs.Packing.{Packed};

    ghost Value = { Packed };

    ghost view = { λ p. record { body = p.body.items; ops = p.ops } };

    ghost invariant = { λ p. IsPacking (vec_len p.body) (vec_capacity p.body) p.ops };
}

/// The flags of the part of a region between two places, where those of a whole one are given.
fn part_flags(flags: u8, from: usize, stop: usize, total: usize) -> u8
    ensures { result ≡ part_flags flags from stop total }
{
    match (from == 0, stop == total) {
        (true, true) => flags,
        (true, false) => CONTINUE,
        (false, true) => LAST_FLAGS,
        (false, false) => MIDDLE_FLAGS,
    }
}

/// Whether an operation doesn't fit, where so many bytes are left of its region.
fn lacks_room(room: usize, left: usize) -> bool
    ensures { IsTrue result ↔ HasNoRoom room left }
{
    room < OPERATION_BYTES || (room < OPERATION_BYTES + 1 && left > 0)
}

/// The header of an operation.
fn header_bytes(tid: u32, len: u32, client: u8, flags: u8) -> [u8; OPERATION_BYTES]
    ensures { result ≡ big_bytes 4 tid ++ (big_bytes 4 len ++ (client ∷ flags ∷ 0 ∷ 0 ∷ [])) }
{
    let mut header = [0; OPERATION_BYTES];
    BigEndian::write_u32(&mut header, tid);
    BigEndian::write_u32(&mut header[OPERATION_LEN_PLACE..], len);
    header[CLIENT_PLACE] = client;
    header[FLAGS_PLACE] = flags;
    header
}

impl Packer {
    /// An empty body, with room for the longest.
    pub fn new(alloc: Global) -> Result<Packer, NoMemory>
        ensures { IfOk result (λ packer. packer ≡ record { body = []; ops = 0 }) }
    {
        Ok(Packer {
            body: Vec::with_capacity(alloc, MAX_BODY_BYTES)?,
            ops: 0,
        })
    }

    /// Appends one operation with as much of the region from `from` on as fits, and answers where it stopped. Its flags
    /// are those given, or, where it is a part of a region, those of that part. Where it answers `None`, fewer than the
    /// twelve bytes of a header are free, or no more than these and there is something left of the region.
    pub fn push(
        &mut self,
        tid: u32,
        client: u8,
        flags: u8,
        region: &[u8],
        from: usize,
    ) -> Option<usize>
        requires { (from < length region.now) ⊎ ((from ≡ 0) × (length region.now ≡ 0)) }
        ensures { MatchOption result
            (HasNoRoom (room_in self.old.body) (length region.now - from) × (self.new ≡ self.old))
            (Pushes self.old self.new tid client flags region.now from) }
    {
        let room = MAX_BODY_BYTES - self.body.len();
        if lacks_room(room, region.len() - from) {
            return None;
        }
        let stop = region.len().min(from + (room - OPERATION_BYTES));
        let flags = part_flags(flags, from, stop, region.len());
        let header = header_bytes(tid, (stop - from) as u32, client, flags);
        self.body.extend_from_slice(&header).unwrap();
        self.body.extend_from_slice(&region[from..stop]).unwrap();
        self.ops += 1;
        Some(stop)
    }

    /// The body so far.
    pub fn body(&self) -> &[u8]
        ensures body { result.now ≡ self.now.body }
        ensures most { length result.now ≤ MAX_BODY_BYTES }
    {
        &self.body
    }

    /// The number of operations in it, each of which has a header.
    pub fn ops(&self) -> u32
        ensures ops { result ≡ self.now.ops }
        ensures each { OPERATION_BYTES * result ≤ length self.now.body }
    {
        self.ops
    }

    /// Empties it.
    pub fn clear(&mut self)
        ensures { self.new ≡ record { body = []; ops = 0 } }
    {
        self.body.clear();
        self.ops = 0;
    }
}

/// What pushes write, however a region is cut, is what the grammar of the stream says.
pub fn pushes_are_operations()
    ensures { PushesAreOperations }
{}
