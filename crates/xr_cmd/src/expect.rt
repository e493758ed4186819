//! The command `expect`: from the lines of a script to the text of the records that follow from them.
ghost use Rattle.std.specs.Prelude.{◌≡◌, ◌+◌, ◌≤◌, All, IfErr, IfOk, OnOk};
ghost use Rattle.std.specs.String.{string_bytes};
ghost use Rattle.xr_base.specs.Cause.{Rose};
ghost use Rattle.xr_maps.specs.FileMaps.{no_maps};
ghost use Rattle.xr_maps.specs.Steps.{Fits, maps_after};
ghost use Rattle.xr_cmd.specs.Answer.{ExpectsOf};
ghost use Rattle.xr_cmd.specs.Failures.{ExpectFails};
ghost use Rattle.xr_cmd.specs.Expect.{Expects};
ghost use Rattle.xr_cmd.specs.Script.{IsScriptFault};
ghost use Rattle.xr_cmd.specs.Streams.{IsReadToEnd, StaysWithin};

use crate::failure::Failure;
use crate::script::{MAX_BYTES, ScriptFault, parse_steps};
use crate::streams::read_front;
use std::alloc::{AllocError, Global};
use xr_disk::Source;
use xr_maps::{Maps, Step};
use xr_text::maps_text;

/// The maps after the steps.
fn maps_of(alloc: Global, steps: &[Step]) -> Result<Maps, AllocError>
    requires { All Fits steps.now }
    ensures { IfOk result (λ maps. maps ≡ maps_after steps.now no_maps) }
{
    let mut maps = Maps::new(alloc)?;
    for step in steps {
        maps.apply(step);
    }
    Ok(maps)
}

/// The text of the records that a script leads to.
pub fn records_text(alloc: Global, script: &[u8]) -> Result<String, ScriptFault>
    ensures text { IfOk result (λ text. Expects script.now (string_bytes text)) }
    ensures fault { IfErr result (IsScriptFault script.now) }
{
    let steps = parse_steps(alloc, script)?;
    let maps = maps_of(alloc, &steps)?;
    Ok(maps_text(alloc, &maps)?)
}

/// Reads a script to its end, or to the first byte past its limit, and gives the text of its records.
pub fn expect<I: Source>(alloc: Global, source: &mut I) -> Result<String, Failure>
    ensures text { IfOk result (λ text. ExpectsOf (I.left source.old) (string_bytes text)) }
    ensures end { OnOk result (IsReadToEnd (I.left source.old) (I.left source.new)) }
    ensures failure { IfErr result (ExpectFails (I.left source.old) (I.faults source.old) (I.faults source.new)) }
    ensures limit { StaysWithin (Rose (I.faults source.old) (I.faults source.new)) (MAX_BYTES + 1) (I.left source.old) (I.left source.new) }
    ensures count { I.faults source.old ≤ I.faults source.new }
{
    let script = read_front(alloc, source, MAX_BYTES + 1)?;
    Ok(records_text(alloc, &script)?)
}
