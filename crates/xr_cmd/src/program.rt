//! The whole program, over any source, sink and disk.
ghost use Rattle.std.specs.Prelude.{◌≡◌, ◌+◌, ◌≤◌, ℕ, List, None, Err, IfOk, IfErr, OnOk, OnErr};
ghost use Rattle.std.specs.Cow.{cow_str_bytes};
ghost use Rattle.std.specs.String.{string_bytes};
ghost use Rattle.xr_base.specs.Cause.{Rose};
ghost use Rattle.xr_base.specs.declared.geometry.TheConstants.{FILES, GROUPS};
ghost use Rattle.xr_disk.specs.Disk.{OnlyReads};
ghost use Rattle.xr_disk.specs.Seen.{WasSeen};
ghost use Rattle.xr_cmd.specs.Answer.{DoneWith, Ends, Finishes, Refuses, Says, code_of};
ghost use Rattle.xr_cmd.specs.AnswerText.{memory_text};
ghost use Rattle.xr_cmd.specs.ExactAnswers.{HasOwnStatus};
ghost use Rattle.xr_cmd.specs.declared.failure.Failure.TheVariants.{NoMemory};
ghost use Rattle.xr_cmd.specs.declared.program.Status.TheVariants.{Done, Memory};
ghost use Rattle.xr_cmd.specs.declared.script.TheConstants.{MAX_BYTES};
ghost use Rattle.xr_cmd.specs.declared.command_line.Command.TheVariants.{Expect, Mkfs};
ghost use Rattle.xr_cmd.specs.Failures.{HasFailure, MkfsFails};
ghost use Rattle.xr_cmd.specs.Limits.{HasLimits};
ghost use Rattle.xr_cmd.specs.Mkfs.{LeavesNoHalves};
ghost use Rattle.xr_cmd.specs.Streams.{IsReadToEnd, StaysWithin};
ghost use Rattle.xr_cmd.specs.CommandLine.{AsksOnly, FormatsDisk, IsCommand, ReadsDisk, ReadsNoScript, UsesNoDisk, texts_of};

use crate::answer_text::{
    DISK_LINE, MEMORY_LINE, SOURCE_LINE, WORDS_LINE, bad_line, differs_line, dirty_line,
    foreign_line, made_line,
};
use crate::check::check_image;
use crate::command_line::{Command, command_of};
use crate::expect::expect;
use crate::failure::Failure;
use crate::make_fresh::mkfs;
use crate::show::show;
use crate::show_log::show_log;
use crate::streams::put_all;
use std::alloc::{AllocError, Global};
use std::borrow::CowStr;
use std::thread::Threads;
use uuid::Uuid;
use xr_check::{images_have_one_verdict, load_refusals_are_exact};
use xr_disk::{Disk, Sink, Source};

/// The cycle with which the log of a new image begins.
const FIRST_CYCLE: u32 = 1;

/// How the program ended.
#[derive(Drop)]
pub struct Ended<D> {
    /// The status with which the process is to end.
    pub status: u8,
    /// The disk that it was given.
    pub disk: D,
}

#[derive(Clone, Copy)]
pub(crate) enum Status {
    Done,
    Differs,
    Words,
    Line,
    Source,
    Sink,
    Disk,
    Foreign,
    Memory,
    Dirty,
}

impl Status {
    fn code(self) -> u8
        ensures { result ≡ code_of self }
    {
        match self {
            Status::Done => 0,
            Status::Differs => 1,
            Status::Words => 2,
            Status::Line => 3,
            Status::Source => 4,
            Status::Sink => 5,
            Status::Disk => 6,
            Status::Foreign => 7,
            Status::Memory => 8,
            Status::Dirty => 10,
        }
    }
}

/// What the program has to say: its status, and the text that goes with it.
#[derive(Drop)]
struct Answer {
    said: Status,
    text: CowStr<'static, Global>,
}

/// A line that never wants memory.
fn fixed(said: Status, line: &'static str) -> Answer
    ensures said { result.said ≡ said }
    ensures text { cow_str_bytes result.text ≡ line.now }
{
    Answer {
        said,
        text: CowStr::Borrowed(line),
    }
}

/// A line that wanted memory, or the line that says that there is none.
fn written(said: Status, line: Result<String, AllocError>) -> Answer
    ensures ok { IfOk line (λ text. (result.said ≡ said) × (cow_str_bytes result.text ≡ string_bytes text)) }
    ensures err { OnErr line ((result.said ≡ Memory) × (cow_str_bytes result.text ≡ memory_text)) }
{
    match line {
        Ok(text) => Answer {
            said,
            text: CowStr::Owned(text),
        },
        Err(_) => fixed(Status::Memory, MEMORY_LINE),
    }
}

/// The answer to a failure. A line with a number needs memory.
fn refusal(alloc: Global, failure: Failure) -> Answer
    ensures { Refuses failure result.said (cow_str_bytes result.text) }
{
    match failure {
        Failure::BadLine(number) => written(Status::Line, bad_line(alloc, number)),
        Failure::SourceFailed => fixed(Status::Source, SOURCE_LINE),
        Failure::DiskFailed => fixed(Status::Disk, DISK_LINE),
        Failure::Differs { tree, group, key } => {
            written(Status::Differs, differs_line(alloc, tree, group, key))
        }
        Failure::Dirty { lsn } => written(Status::Dirty, dirty_line(alloc, lsn)),
        Failure::Foreign { block, rule } => {
            written(Status::Foreign, foreign_line(alloc, block, rule))
        }
        Failure::NoMemory => fixed(Status::Memory, MEMORY_LINE),
    }
}

/// Formats the disk, and gives the line that says so. The line comes first, so that want of memory leaves the disk.
fn format<D: Disk>(alloc: Global, disk: &mut D, uuid: &Uuid) -> Result<String, Failure>
    ensures done { IfOk result (λ text. DoneWith None (D.view disk.old) (D.view disk.new) (Mkfs uuid.now) (string_bytes text)) }
    ensures failure { IfErr result (MkfsFails (Rose (D.view disk.old).faults (D.view disk.new).faults)) }
    ensures alone { result ≡ Err NoMemory → disk.new ≡ disk.old }
    ensures crash { LeavesNoHalves uuid.now FIRST_CYCLE (D.view disk.old) (D.view disk.new) }
    ensures count { (D.view disk.old).faults ≤ (D.view disk.new).faults }
{
    let line = made_line(alloc, uuid)?;
    mkfs(disk, uuid, FIRST_CYCLE)?;
    Ok(line)
}

/// Does what a command asks for, and gives its text.
fn perform<D: Disk, I: Source>(
    alloc: Global,
    command: &Command,
    script: &mut I,
    disk: &mut D,
) -> Result<String, Failure>
    ensures done { IfOk result (λ text. DoneWith (I.left script.old) (D.view disk.old) (D.view disk.new) command.now (string_bytes text)) }
    ensures failure { IfErr result (HasFailure (I.left script.old) (I.faults script.old) (I.faults script.new)
        (D.view disk.old) (D.view disk.new) command.now) }
    ensures read_to_end { command.now ≡ Expect → OnOk result (IsReadToEnd (I.left script.old) (I.left script.new)) }
    ensures limit { StaysWithin (Rose (I.faults script.old) (I.faults script.new)) (MAX_BYTES + 1) (I.left script.old) (I.left script.new) }
    ensures unread { ReadsNoScript command.now → script.new ≡ script.old }
    ensures untouched { UsesNoDisk command.now → disk.new ≡ disk.old }
    ensures reads { ReadsDisk command.now → OnlyReads (D.view disk.old) (D.view disk.new) }
    ensures clock { ReadsDisk command.now → (D.view disk.new).moment ≤ (D.view disk.old).moment + 2 + FILES + GROUPS }
    ensures alone { FormatsDisk command.now → result ≡ Err NoMemory → disk.new ≡ disk.old }
    ensures crash { (uuid : List ℕ) → command.now ≡ Mkfs uuid → LeavesNoHalves uuid FIRST_CYCLE (D.view disk.old) (D.view disk.new) }
    ensures source_count { I.faults script.old ≤ I.faults script.new }
    ensures disk_count { (D.view disk.old).faults ≤ (D.view disk.new).faults }
{
    match command {
        Command::Expect => expect(alloc, script),
        Command::Mkfs { uuid } => format(alloc, disk, uuid),
        Command::Check => check_image(alloc, disk),
        Command::Show { part } => show(alloc, disk, *part),
        Command::ShowLog => show_log(alloc, disk),
    }
}

fn answer_to<D: Disk, I: Source>(
    alloc: Global,
    words: &[&str],
    script: &mut I,
    disk: &mut D,
) -> Answer
    ensures says { Says (texts_of words.now) (I.left script.old) (I.faults script.old) (I.faults script.new)
        (D.view disk.old) (D.view disk.new) result.said (cow_str_bytes result.text) }
    ensures read_to_end { IsCommand (texts_of words.now) Expect → result.said ≡ Done → IsReadToEnd (I.left script.old) (I.left script.new) }
    ensures limit { StaysWithin (Rose (I.faults script.old) (I.faults script.new)) (MAX_BYTES + 1) (I.left script.old) (I.left script.new) }
    ensures unread { AsksOnly (texts_of words.now) ReadsNoScript → script.new ≡ script.old }
    ensures untouched { AsksOnly (texts_of words.now) UsesNoDisk → disk.new ≡ disk.old }
    ensures reads { AsksOnly (texts_of words.now) ReadsDisk → OnlyReads (D.view disk.old) (D.view disk.new) }
    ensures clock { AsksOnly (texts_of words.now) ReadsDisk → (D.view disk.new).moment ≤ (D.view disk.old).moment + 2 + FILES + GROUPS }
    ensures alone { AsksOnly (texts_of words.now) FormatsDisk → result.said ≡ Memory → disk.new ≡ disk.old }
    ensures crash { (uuid : List ℕ) → AsksOnly (texts_of words.now) (λ command. command ≡ Mkfs uuid)
        → LeavesNoHalves uuid FIRST_CYCLE (D.view disk.old) (D.view disk.new) }
    ensures source_count { I.faults script.old ≤ I.faults script.new }
    ensures disk_count { (D.view disk.old).faults ≤ (D.view disk.new).faults }
{
    match command_of(words) {
        None => fixed(Status::Words, WORDS_LINE),
        Some(command) => match perform(alloc, &command, script, disk) {
            Ok(text) => Answer {
                said: Status::Done,
                text: CowStr::Owned(text),
            },
            Err(failure) => refusal(alloc, failure),
        },
    }
}

/// Writes the text, and gives its status, or that of a sink that failed.
fn finish<O: Sink>(out: &mut O, answer: &Answer) -> u8
    ensures ends { Finishes (O.held out.old) (O.held out.new) (Rose (O.faults out.old) (O.faults out.new))
        answer.now.said (cow_str_bytes answer.now.text) result }
    ensures count { O.faults out.old ≤ O.faults out.new }
{
    let status = match put_all(out, answer.text.as_bytes()) {
        Ok(()) => answer.said,
        Err(_) => Status::Sink,
    };
    status.code()
}

/// Does what the words ask for, which don't hold the program's name. All that is printed goes to `out`, in one text that
/// the status goes with: 0 with the text of the command, 1 for an image whose trees don't hold what its files map, 2 for words
/// that are no command's, 3 for a bad line, 4 for a source that failed, 5 for a sink that failed, before all others, 6 for a disk
/// that failed, 7 for an image that isn't one of the program's, 8 for want of memory, and 10 for an image that wasn't unmounted.
pub fn xreflink<R: Threads + Sync, D: Disk + Send, I: Source, O: Sink>(
    _rt: &R,
    alloc: Global,
    words: &[&str],
    script: &mut I,
    out: &mut O,
    mut disk: D,
) -> Ended<D>
    ensures ends { Ends (texts_of words.now) (I.left script.old) (I.faults script.old) (I.faults script.new)
        (D.view disk) (D.view result.disk) (O.held out.old) (O.held out.new) (Rose (O.faults out.old) (O.faults out.new)) result.status }
    ensures own { WasSeen (D.view disk).seen (λ image. HasOwnStatus (texts_of words.now) image result.status) }

    // What the source and the disk are left as.
    ensures read_to_end { IsCommand (texts_of words.now) Expect → result.status ≡ 0 → IsReadToEnd (I.left script.old) (I.left script.new) }
    ensures limit { StaysWithin (Rose (I.faults script.old) (I.faults script.new)) (MAX_BYTES + 1) (I.left script.old) (I.left script.new) }
    ensures unread { AsksOnly (texts_of words.now) ReadsNoScript → script.new ≡ script.old }
    ensures untouched { AsksOnly (texts_of words.now) UsesNoDisk → result.disk ≡ disk }
    ensures reads { AsksOnly (texts_of words.now) ReadsDisk → OnlyReads (D.view disk) (D.view result.disk) }
    ensures clock { AsksOnly (texts_of words.now) ReadsDisk → (D.view result.disk).moment ≤ (D.view disk).moment + 2 + FILES + GROUPS }
    ensures alone { AsksOnly (texts_of words.now) FormatsDisk → result.status ≡ 8 → result.disk ≡ disk }
    ensures crash { (uuid : List ℕ) → AsksOnly (texts_of words.now) (λ command. command ≡ Mkfs uuid)
        → LeavesNoHalves uuid FIRST_CYCLE (D.view disk) (D.view result.disk) }

    // Faults are counted, and no count falls.
    ensures source_count { I.faults script.old ≤ I.faults script.new }
    ensures sink_count { O.faults out.old ≤ O.faults out.new }
    ensures disk_count { (D.view disk).faults ≤ (D.view result.disk).faults }
{
    // These say that no other answer is so of the image.
    images_have_one_verdict();
    load_refusals_are_exact();
    let answer = answer_to(alloc, words, script, &mut disk);
    Ended {
        status: finish(out, &answer),
        disk,
    }
}

/// Each limit and the first cycle are those that users are promised. So whatever is defined by a constant is defined by
/// that number.
pub fn limits_are_fixed()
    ensures { HasLimits }
{}

/// Says that there is no memory, where the words couldn't be read for want of it, and gives the status.
pub fn without_memory<O: Sink>(out: &mut O) -> u8
    ensures ends { Finishes (O.held out.old) (O.held out.new) (Rose (O.faults out.old) (O.faults out.new)) Memory memory_text result }
    ensures count { O.faults out.old ≤ O.faults out.new }
{
    finish(out, &fixed(Status::Memory, MEMORY_LINE))
}
