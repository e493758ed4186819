//! Where bytes go.
ghost use Rattle.std.specs.Prelude.{◌≡◌, ℕ, ◌-◌, ◌<◌, ◌≤◌, ◌↔◌, ◌⊎◌, Option, Some, List, [], length, ◌++◌, IsErr, IfOk, OnOk, OnErr};
ghost use Rattle.xr_base.specs.Cause.{HasCause};
ghost use Rattle.xr_disk.specs.Stream.{AppendsFront, Keeps};
ghost use Rattle.xr_disk.specs.Plan.{fresh_plan, FailsNext, plan_after_call, plan_after_fault};

use crate::plan::Plan;
use std::alloc::Global;
use std::marker::Model;
use xr_base::{Fault, NoMemory};

/// Bytes that go outside. Faults are counted, and nothing else is; a count stays at `u64::MAX`.
pub trait Sink {
    // The bytes that are held, where the object tells.
    ghost held: { Self → Option (List ℕ) };

    ghost faults: { Self → ℕ };

    /// Appends bytes from the front of the slice, at least one. A fault appends none.
    fn put(&mut self, bytes: &[u8]) -> Result<usize, Fault>
        requires { 0 < length bytes.now }
        ensures front { IfOk result (λ n. AppendsFront (held self.old) (held self.new) n bytes.now) }
        ensures none { OnErr result (Keeps (held self.old) (held self.new)) }
        ensures cause { HasCause result (faults self.old) (faults self.new) };
}

/// A sink in memory. A call is a fault if it was told to fail, or if its bytes don't all fit.
#[derive(Drop)]
pub struct MemSink {
    bytes: Vec<u8>,
    room: usize,
    plan: Plan,
}

impl Model for MemSink {
    ghost use Rattle.std.specs.Prelude.{◌≤◌, vec_len, vec_capacity};
    ghost use Rattle.xr_disk.specs.Memory.{SinkState};

    ghost Value = { SinkState };

    ghost view = { λ s. record { held = s.bytes.items; room = s.room; plan = s.plan } };

    ghost invariant = { λ s. (vec_len s.bytes ≤ s.room) × (s.room ≤ vec_capacity s.bytes) };
}

impl MemSink {
    /// A sink with room for so many bytes, whose calls with these numbers fail. The first call is
    /// number 1.
    pub fn new(alloc: Global, room: usize, fails: Vec<u64>) -> Result<MemSink, NoMemory>
        ensures { IfOk result (λ sink. sink ≡
            record { held = []; room = room; plan = fresh_plan fails.items }) }
    {
        Ok(MemSink {
            bytes: Vec::with_capacity(alloc, room)?,
            room,
            plan: Plan::new(fails),
        })
    }

    /// The bytes that it holds.
    pub fn bytes(&self) -> &[u8]
        ensures { result.now ≡ self.now.held }
    {
        &self.bytes
    }
}

impl Sink for MemSink {
    ghost held = { λ s. Some s.held };

    ghost faults = { λ s. s.plan.faults };

    /// Takes all of the bytes, and no memory.
    fn put(&mut self, bytes: &[u8]) -> Result<usize, Fault>
        requires { 0 < length bytes.now }
        ensures front { IfOk result (λ n.
            AppendsFront (Some self.old.held) (Some self.new.held) n bytes.now) }
        ensures none { OnErr result (Keeps (Some self.old.held) (Some self.new.held)) }
        ensures cause { HasCause result self.old.plan.faults self.new.plan.faults }

        // Exactly when it fails, and what each outcome leaves.
        ensures fault { IsErr result ↔ (FailsNext self.old.plan
            ⊎ (self.old.room - length self.old.held < length bytes.now)) }
        ensures count { IfOk result (λ n. n ≡ length bytes.now) }
        ensures ok { OnOk result (self.new ≡ record self.old {
          held = self.old.held ++ bytes.now;
          plan = plan_after_call self.old.plan;
        }) }
        ensures err { OnErr result (self.new ≡
            record self.old { plan = plan_after_fault self.old.plan }) }
    {
        self.plan.begin()?;
        if self.room - self.bytes.len() < bytes.len() {
            return Err(self.plan.fault());
        }
        match self.bytes.extend_from_slice(bytes) {
            Ok(()) => Ok(bytes.len()),
            // The room was taken at the start.
            Err(_) => unreachable!(),
        }
    }
}
