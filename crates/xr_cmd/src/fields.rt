//! Words and numbers with one space between them, read back from how they are printed.
ghost use Rattle.std.specs.Prelude.{ℕ, List, MatchOption};
ghost use Rattle.xr_cmd.specs.LineParts.{IsNumberBefore};
ghost use Rattle.xr_text.specs.Text.{IsNumber};

/// The number that the word prints, where it is below 2^32.
pub fn number(word: &str) -> Option<u32>
    ensures { MatchOption result ((n : ℕ) → ¬ IsNumber word.now n) (IsNumber word.now) }
{
    // `parse` would take a leading zero and a plus sign too, whose code is below that of a zero.
    if word.len() > 1 && word.as_bytes()[0] <= b'0' {
        return None;
    }
    word.parse().ok()
}

/// The number that the text begins with, where it is below 2^32, and what follows the space after it.
pub fn field(text: &str) -> Option<(u32, &str)>
    ensures { MatchOption result
        ((n : ℕ) (rest : List ℕ) → ¬ IsNumberBefore text.now n rest)
        (λ read. IsNumberBefore text.now read.0 read.1.now) }
{
    let (word, rest) = text.split_once(' ')?;
    Some((number(word)?, rest))
}
