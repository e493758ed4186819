//! Scripts of mapping steps, a step a line.
ghost use Rattle.std.specs.Prelude.{◌≡◌, ◌↔◌, ◌==◌, codes, position, IsTrue, MatchOption, IfOk, IfErr};
ghost use Rattle.std.specs.List.{before_first, after_first};
ghost use Rattle.xr_maps.specs.declared.steps.Step.{Step};
ghost use Rattle.xr_cmd.specs.declared.script.ScriptFault.TheVariants.{NoMemory};
ghost use Rattle.xr_cmd.specs.LineParts.{IsStepAfter};
ghost use Rattle.xr_cmd.specs.Script.{LineGives, IsPassedOver, AreStepsOf, HasNoBadLine, IsScriptFault};

use crate::fields::{field, number};
use std::alloc::{AllocError, AllocFailed, Global};
use std::str;
use thiserror::Error;
use xr_base::{Addr, FileNo};
use xr_maps::{Step, fits};

/// The number of lines that a script may have, empty ones and comments among them.
pub const MAX_LINES: u32 = 65_536;

/// The number of bytes that a script may have. A reader of a longer one need read no more than one byte past it to find
/// the first bad line.
pub const MAX_BYTES: usize = 4_194_304;

/// Why a script gives no steps.
#[derive(Clone, Copy, Debug, PartialEq, Eq, Error)]
pub enum ScriptFault {
    /// The first bad line, numbered from 1 on: one that stands for no step, or passes a limit.
    #[error("line {number} is bad")]
    Line { number: u32 },
    /// Want of memory.
    #[error("out of memory")]
    NoMemory,
}

impl From<AllocError> for ScriptFault {
    ghost from_gives = { λ _ fault. fault ≡ NoMemory };

    fn from(_error: AllocError) -> ScriptFault {
        ScriptFault::NoMemory
    }
}

impl<T: Drop> From<AllocFailed<T>> for ScriptFault {
    ghost from_gives = { λ _ fault. fault ≡ NoMemory };

    fn from(_error: AllocFailed<T>) -> ScriptFault {
        ScriptFault::NoMemory
    }
}

fn newline_place(bytes: &[u8]) -> Option<usize>
    ensures { result ≡ position (λ byte. byte == 10) bytes.now }
{
    bytes.iter().position(|byte| *byte == b'\n')
}

/// The first line of some bytes, without its newline, and the bytes after it.
fn split_line(bytes: &[u8]) -> (&[u8], &[u8])
    ensures line { result.0.now ≡ before_first (λ byte. byte == 10) bytes.now }
    ensures rest { result.1.now ≡ after_first (λ byte. byte == 10) bytes.now }
{
    match newline_place(bytes) {
        Some(end) => (&bytes[..end], &bytes[end + 1..]),
        None => bytes.split_at(bytes.len()),
    }
}

fn is_passed_over(line: &[u8]) -> bool
    ensures { IsTrue result ↔ IsPassedOver line.now }
{
    match line {
        [] | [b'#', ..] => true,
        _ => false,
    }
}

/// The step that the words after `remap` stand for, which may not fit.
fn remap_of(words: &str) -> Option<Step>
    ensures { MatchOption result ((step : Step) → ¬ IsStepAfter (codes "remap") words.now step) (IsStepAfter (codes "remap") words.now) }
{
    let (file, words) = field(words)?;
    let (off, words) = field(words)?;
    let (len, words) = field(words)?;
    let at = number(words)?;
    Some(Step::Remap {
        file: FileNo(file),
        off,
        len,
        at: Addr(at),
    })
}

/// The step that the words after `punch` stand for, which may not fit.
fn punch_of(words: &str) -> Option<Step>
    ensures { MatchOption result ((step : Step) → ¬ IsStepAfter (codes "punch") words.now step) (IsStepAfter (codes "punch") words.now) }
{
    let (file, words) = field(words)?;
    let (off, words) = field(words)?;
    let len = number(words)?;
    Some(Step::Punch {
        file: FileNo(file),
        off,
        len,
    })
}

/// The step that the words after `exchange` stand for, which may not fit.
fn exchange_of(words: &str) -> Option<Step>
    ensures { MatchOption result ((step : Step) → ¬ IsStepAfter (codes "exchange") words.now step) (IsStepAfter (codes "exchange") words.now) }
{
    let (file, words) = field(words)?;
    let (off, words) = field(words)?;
    let (other, words) = field(words)?;
    let (other_off, words) = field(words)?;
    let len = number(words)?;
    Some(Step::Exchange {
        file: FileNo(file),
        off,
        other: FileNo(other),
        other_off,
        len,
    })
}

/// The step that a line's first word and the words after it stand for, which may not fit.
fn step_after(kind: &str, words: &str) -> Option<Step>
    ensures { MatchOption result ((step : Step) → ¬ IsStepAfter kind.now words.now step) (IsStepAfter kind.now words.now) }
{
    match kind {
        "remap" => remap_of(words),
        "punch" => punch_of(words),
        "exchange" => exchange_of(words),
        _ => None,
    }
}

/// The step that a line stands for.
fn step_of(line: &[u8]) -> Option<Step>
    ensures { MatchOption result ((step : Step) → ¬ LineGives line.now step) (LineGives line.now) }
{
    let Ok(line) = str::from_utf8(line) else {
        return None;
    };
    let (kind, words) = line.split_once(' ')?;
    let step = step_after(kind, words)?;
    if fits(&step) { Some(step) } else { None }
}

/// The steps of a script, a step a line: `remap F OFF LEN AT`, `punch F OFF LEN` or `exchange F OFF G OFF LEN`, with one
/// space between the words and the numbers in decimal. The last line may lack its newline. An empty line and a comment,
/// which begins with `#` and may hold any bytes, are passed over, but counted.
pub fn parse_steps(alloc: Global, bytes: &[u8]) -> Result<Vec<Step>, ScriptFault>
    ensures steps { IfOk result (λ steps. AreStepsOf bytes.now steps.items) }
    ensures sound { IfOk result (λ _. HasNoBadLine bytes.now) }
    ensures first_bad { IfErr result (IsScriptFault bytes.now) }
{
    let mut steps = Vec::new(alloc);
    let mut rest = bytes;
    let mut number = 0;
    while !rest.is_empty() {
        let (line, after) = split_line(rest);
        number += 1;
        if number > MAX_LINES || bytes.len() - after.len() > MAX_BYTES {
            return Err(ScriptFault::Line { number });
        }
        if !is_passed_over(line) {
            let Some(step) = step_of(line) else {
                return Err(ScriptFault::Line { number });
            };
            steps.push(step)?;
        }
        rest = after;
    }
    Ok(steps)
}
