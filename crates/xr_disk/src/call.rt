//! The calls that a disk in memory keeps, and what becomes of the next one.
ghost use Rattle.std.specs.Prelude.{◌≡◌, ℕ, IsTrue};
ghost use Rattle.xr_disk.specs.Events.{IsFate};

/// A call that succeeded, or the write with which the power went. Calls count from 1.
#[derive(Clone, Copy, Debug, PartialEq, Eq)]
pub enum Call {
    /// A read from sector `at` on.
    Read {
        number: u64,
        at: u32,
    },
    /// A write from sector `at` on. Its bytes are the `len` bytes from `from` on of those that the disk keeps.
    Write {
        number: u64,
        at: u32,
        from: u64,
        len: u32,
    },
    /// A sync.
    Sync {
        number: u64,
    },
}

/// What becomes of a call.
pub(crate) enum Fate {
    Succeeds,
    /// The power goes with it, and it can be kept.
    Stops,
    Fails,
}

/// What becomes of the call after so many, where `fits` says that it can be kept.
pub(crate) fn fate_of_next(calls: u64, fails: &[u64], stop: Option<u64>, fits: bool) -> Fate
    ensures { IsFate calls fails.now stop (IsTrue fits) result }
{
    let Some(number) = calls.checked_add(1) else {
        return Fate::Fails;
    };
    if !fits {
        return Fate::Fails;
    }
    match stop {
        Some(last) if last == number => Fate::Stops,
        Some(last) if last < number => Fate::Fails,
        _ => {
            if fails.contains(&number) {
                Fate::Fails
            } else {
                Fate::Succeeds
            }
        }
    }
}
