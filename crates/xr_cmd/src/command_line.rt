//! The words of the command line: which lists of words are commands.
ghost use Rattle.std.specs.Prelude.{◌≡◌, ◌≢◌, ◌↔◌, ℕ, List, [], ◌∷◌, IsTrue, MatchOption};
ghost use Rattle.xr_cmd.specs.CommandLine.{IsCommand, IsNoCommand, IsImage, IsMkfs, IsPlain, IsShowOf, name_of, texts_of};
ghost use Rattle.xr_cmd.specs.declared.command_line.Command.{Command};
ghost use Rattle.xr_cmd.specs.declared.command_line.Command.TheVariants.{Mkfs};
ghost use Rattle.xr_cmd.specs.declared.command_line.Part.{Part};

use uuid::Uuid;

/// A part of an image that can be shown.
#[derive(Clone, Copy, Debug, PartialEq, Eq)]
pub enum Part {
    /// The extents of all files.
    Files,
    /// Who owns which blocks.
    Owners,
    /// The blocks with two owners or more, and those that are staged.
    Shared,
    /// The runs of free blocks.
    Free,
}

/// What a command line asks for.
#[derive(Clone, Copy, Debug, PartialEq, Eq)]
pub enum Command {
    /// Reads a script of mapping steps, and prints the records that follow from them.
    Expect,
    /// Makes a fresh image with this identifier.
    Mkfs { uuid: Uuid },
    /// Says whether the trees of an image hold what its files map.
    Check,
    /// Prints a part of an image.
    Show { part: Part },
    /// Prints the live stream of an image's log.
    ShowLog,
}

/// Whether the word doesn't begin as an option would.
fn is_plain(word: &str) -> bool
    ensures { IsTrue result ↔ IsPlain word.now }
{
    !word.starts_with('-')
}

/// Whether the word names an image: it isn't empty, and doesn't begin as an option would.
fn is_image(word: &str) -> bool
    ensures { IsTrue result ↔ IsImage word.now }
{
    !word.is_empty() && is_plain(word)
}

/// The part with this name.
fn part_of(word: &str) -> Option<Part>
    ensures { MatchOption result ((part : Part) → word.now ≢ name_of part) (λ part. word.now ≡ name_of part) }
{
    match word {
        "files" => Some(Part::Files),
        "owners" => Some(Part::Owners),
        "shared" => Some(Part::Shared),
        "free" => Some(Part::Free),
        _ => None,
    }
}

/// The command that makes an image with an identifier, given in any of the four forms of a UUID.
fn mkfs_of(image: &str, uuid: &str) -> Option<Command>
    ensures { MatchOption result ((id : List ℕ) → ¬ IsMkfs image.now uuid.now id)
        (λ command. (id : List ℕ) × (command ≡ Mkfs id) × IsMkfs image.now uuid.now id) }
{
    if !is_image(image) {
        return None;
    }
    match Uuid::parse_str(uuid) {
        Ok(uuid) => Some(Command::Mkfs { uuid }),
        Err(_) => None,
    }
}

/// The command that shows a part of an image, or its log.
fn show_of(image: &str, part: &str) -> Option<Command>
    ensures { MatchOption result ((command : Command) → ¬ IsShowOf image.now part.now command) (IsShowOf image.now part.now) }
{
    if !is_image(image) {
        return None;
    }
    if part == "log" {
        return Some(Command::ShowLog);
    }
    match part_of(part) {
        Some(part) => Some(Command::Show { part }),
        None => None,
    }
}

/// The command of three words, if they are those of one.
fn command_of_three(kind: &str, image: &str, last: &str) -> Option<Command>
    ensures { MatchOption result (IsNoCommand (kind.now ∷ image.now ∷ last.now ∷ [])) (IsCommand (kind.now ∷ image.now ∷ last.now ∷ [])) }
{
    match kind {
        "mkfs" => mkfs_of(image, last),
        "show" => show_of(image, last),
        _ => None,
    }
}

/// The command of two words, if they are those of one.
fn command_of_two(kind: &str, image: &str) -> Option<Command>
    ensures { MatchOption result (IsNoCommand (kind.now ∷ image.now ∷ [])) (IsCommand (kind.now ∷ image.now ∷ [])) }
{
    if kind == "check" && is_image(image) {
        Some(Command::Check)
    } else {
        None
    }
}

/// The command of one word, if it is that of one.
fn command_of_one(word: &str) -> Option<Command>
    ensures { MatchOption result (IsNoCommand (word.now ∷ [])) (IsCommand (word.now ∷ [])) }
{
    match word {
        "expect" => Some(Command::Expect),
        _ => None,
    }
}

/// The command that the words ask for, if they are those of one. The program's name isn't among them.
pub fn command_of(words: &[&str]) -> Option<Command>
    ensures { MatchOption result (IsNoCommand (texts_of words.now)) (IsCommand (texts_of words.now)) }
{
    match words {
        [word] => command_of_one(word),
        [kind, image] => command_of_two(kind, image),
        [kind, image, last] => command_of_three(kind, image, last),
        _ => None,
    }
}
