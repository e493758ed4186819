//! The header of an operation: its fields, and what it is by its client and flags.
ghost use Rattle.std.specs.Prelude.{◌≡◌, ◌≤◌, length};
ghost use Rattle.xr_record.specs.Operations.{fields};
ghost use Rattle.xr_base.specs.Fields.{AreBytes};
ghost use Rattle.xr_record.specs.declared.layout.TheConstants.{OPERATION_BYTES};

use crate::layout::{CLIENT_PLACE, FLAGS_PLACE, OPERATION_LEN_PLACE, OPERATION_ZEROS_PLACE};
use byteorder::{BigEndian, ByteOrder};

/// What an operation is.
#[derive(Clone, Copy, Debug, PartialEq, Eq)]
pub enum Sort {
    /// It begins a transaction.
    Start,
    /// It holds a transaction's header or a whole region.
    Whole,
    /// It holds the first part of a region that is cut.
    First,
    /// It holds a part that is neither the first nor the last.
    Middle,
    /// It holds the last part.
    Last,
    /// It ends a transaction.
    Commit,
    /// It marks a clean unmount.
    Unmount,
}

/// The fields of an operation's header ("XFS Algorithms and Data Structures", 3rd edition, Log Operations).
#[derive(Clone, Copy, Debug, PartialEq, Eq)]
pub struct Fields {
    pub tid: u32,
    pub len: u32,
    pub client: u8,
    pub flags: u8,
    pub zeros: u16,
}

pub fn fields_in(bytes: &[u8]) -> Fields
    requires { OPERATION_BYTES ≤ length bytes.now }
    ensures fields { result ≡ fields bytes.now }
    ensures small { AreBytes bytes.now }
{
    Fields {
        tid: BigEndian::read_u32(bytes),
        len: BigEndian::read_u32(&bytes[OPERATION_LEN_PLACE..]),
        client: bytes[CLIENT_PLACE],
        flags: bytes[FLAGS_PLACE],
        zeros: BigEndian::read_u16(&bytes[OPERATION_ZEROS_PLACE..]),
    }
}
