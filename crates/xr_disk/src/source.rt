//! Where bytes come from.
ghost use Rattle.std.specs.Prelude.{◌≡◌, ℕ, ◌<◌, ◌≤◌, ◌↔◌, min, Option, Some, List, length, drop, take, ◌++◌, IsErr, IfOk, OnErr};
ghost use Rattle.xr_base.specs.Cause.{HasCause};
ghost use Rattle.xr_disk.specs.Stream.{TakesFront};
ghost use Rattle.xr_disk.specs.Plan.{fresh_plan, FailsNext, plan_after_call, plan_after_fault};

use crate::plan::Plan;
use std::marker::Model;
use xr_base::Fault;

/// Bytes that come from outside. Faults are counted, and nothing else is; a count stays at `u64::MAX`.
pub trait Source {
    // The bytes that are left, where the object tells.
    ghost left: { Self → Option (List ℕ) };

    ghost faults: { Self → ℕ };

    /// Takes bytes into the front of the buffer. Their count is 0 only at the end.
    /// After a fault nothing is known of the buffer, nor of what is left.
    fn take(&mut self, out: &mut [u8]) -> Result<usize, Fault>
        requires { 0 < length out.old }
        ensures front { IfOk result (λ n. TakesFront (left self.old) (left self.new) n out.new) }
        ensures cause { HasCause result (faults self.old) (faults self.new) };
}

/// A source in memory. The calls that it was told fail, and no others, are faults.
#[derive(Drop)]
pub struct MemSource {
    bytes: Vec<u8>,
    taken: usize,
    plan: Plan,
}

impl Model for MemSource {
    ghost use Rattle.std.specs.Prelude.{◌≤◌, drop, vec_len};
    ghost use Rattle.xr_disk.specs.Memory.{SourceState};

    ghost Value = { SourceState };

    ghost view = { λ s. record { left = drop s.taken s.bytes.items; plan = s.plan } };

    ghost invariant = { λ s. s.taken ≤ vec_len s.bytes };
}

impl MemSource {
    /// A source of these bytes, whose calls with these numbers fail. The first call is number 1.
    pub fn new(bytes: Vec<u8>, fails: Vec<u64>) -> MemSource
        ensures { result ≡ record { left = bytes.items; plan = fresh_plan fails.items } }
    {
        MemSource {
            bytes,
            taken: 0,
            plan: Plan::new(fails),
        }
    }
}

impl Source for MemSource {
    ghost left = { λ s. Some s.left };

    ghost faults = { λ s. s.plan.faults };

    /// Gives as many bytes as there are and fit. A fault leaves the buffer as it was.
    fn take(&mut self, out: &mut [u8]) -> Result<usize, Fault>
        requires { 0 < length out.old }
        ensures front { IfOk result (λ n.
            TakesFront (Some self.old.left) (Some self.new.left) n out.new) }
        ensures cause { HasCause result self.old.plan.faults self.new.plan.faults }

        // Exactly when it fails, and what each outcome leaves.
        ensures fault { IsErr result ↔ FailsNext self.old.plan }
        ensures count { IfOk result (λ n. n ≡ min (length out.old) (length self.old.left)) }
        ensures ok { IfOk result (λ n. self.new ≡
            record { left = drop n self.old.left; plan = plan_after_call self.old.plan }) }
        ensures filled { IfOk result (λ n. out.new ≡ take n self.old.left ++ drop n out.old) }
        ensures err { OnErr result (self.new ≡
            record self.old { plan = plan_after_fault self.old.plan }) }
        ensures unfilled { OnErr result (out.new ≡ out.old) }
    {
        self.plan.begin()?;
        let n = out.len().min(self.bytes.len() - self.taken);
        fill_front(out, &self.bytes[self.taken..self.taken + n]);
        self.taken += n;
        Ok(n)
    }
}

fn fill_front(out: &mut [u8], bytes: &[u8])
    requires { length bytes.now ≤ length out.old }
    ensures { out.new ≡ bytes.now ++ drop (length bytes.now) out.old }
{
    let n = bytes.len();
    out[..n].copy_from_slice(bytes);
}
