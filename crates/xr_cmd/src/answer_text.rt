//! The lines that say how a command ended.
ghost use Rattle.std.specs.Prelude.{◌≡◌, IfOk};
ghost use Rattle.std.specs.String.{string_bytes};
ghost use Rattle.xr_cmd.specs.AnswerText.{bad_line_text, differs_text, dirty_text, foreign_text, made_text};
ghost use Rattle.xr_cmd.specs.AnswerText.{name_of_tree as tree_name, number_of_rule as rule_number};

use std::alloc::{AllocError, Global};
use std::fmt::Write;
use uuid::Uuid;
use xr_base::{Addr, GroupNo};
use xr_check::{Broken, TreeName};
use xr_record::Lsn;

/// The line for words that are no command's.
pub const WORDS_LINE: &str = "words\n";

/// The line for a source that failed.
pub const SOURCE_LINE: &str = "source\n";

/// The line for a disk that failed.
pub const DISK_LINE: &str = "disk\n";

/// The line for want of memory.
pub const MEMORY_LINE: &str = "memory\n";

/// The line for an image whose trees hold what is defined.
pub const SOUND_LINE: &str = "sound\n";

/// The line for a script whose first bad line has this number.
pub fn bad_line(alloc: Global, number: u32) -> Result<String, AllocError>
    ensures { IfOk result (λ text. string_bytes text ≡ bad_line_text number) }
{
    format!(in alloc; "line {number}\n")
}

/// The number of a rule.
fn number_of_rule(rule: Broken) -> u32
    ensures { result ≡ rule_number rule }
{
    match rule {
        Broken::Magic => 3,
        Broken::Version => 4,
        Broken::Length => 5,
        Broken::Checksum => 6,
        Broken::Place => 7,
        Broken::Operation => 8,
        Broken::ItemType => 9,
        Broken::Size => 10,
        Broken::Field => 11,
        Broken::Header => 12,
        Broken::Tree => 13,
        Broken::Debt => 23,
    }
}

/// The line for a block that breaks a rule.
pub fn foreign_line(alloc: Global, block: u32, rule: Broken) -> Result<String, AllocError>
    ensures { IfOk result (λ text. string_bytes text ≡ foreign_text block (rule_number rule)) }
{
    let why = number_of_rule(rule);
    let mut text = String::new(alloc);
    writeln!(text, "foreign {block} {why}")?;
    Ok(text)
}

fn name_of_tree(tree: TreeName) -> &'static str
    ensures { result.now ≡ tree_name tree }
{
    match tree {
        TreeName::Owners => "owners",
        TreeName::Shared => "shared",
        TreeName::Free => "free",
        TreeName::Sizes => "sizes",
    }
}

/// The line for a tree that holds other records than are defined.
pub fn differs_line(
    alloc: Global,
    tree: TreeName,
    group: GroupNo,
    key: Addr,
) -> Result<String, AllocError>
    ensures { IfOk result (λ text. string_bytes text ≡ differs_text tree group key) }
{
    let tree = name_of_tree(tree);
    let mut text = String::new(alloc);
    writeln!(text, "differs {tree} group {} key {}", group.0, key.0)?;
    Ok(text)
}

/// The line for a log whose newest record is no unmount.
pub fn dirty_line(alloc: Global, lsn: Lsn) -> Result<String, AllocError>
    ensures { IfOk result (λ text. string_bytes text ≡ dirty_text lsn) }
{
    let mut text = String::new(alloc);
    writeln!(text, "dirty {}:{}", lsn.cycle, lsn.sector)?;
    Ok(text)
}

/// The line for an image that was made.
pub fn made_line(alloc: Global, uuid: &Uuid) -> Result<String, AllocError>
    ensures { IfOk result (λ text. string_bytes text ≡ made_text uuid.now) }
{
    let mut buffer = Uuid::encode_buffer();
    let uuid = uuid.hyphenated().encode_lower(&mut buffer);
    let mut text = String::new(alloc);
    writeln!(text, "made {uuid}")?;
    Ok(text)
}
