//! The two ways in which a call fails that no input decides: want of memory, and the outside.

use std::alloc::AllocError;
use thiserror::Error;

/// Want of memory.
pub type NoMemory = AllocError;

/// An object of the outside, as a disk, a source or a sink, failed. It counts its faults.
#[derive(Clone, Copy, Debug, PartialEq, Eq, Error)]
#[error("the outside failed")]
pub struct Fault;
