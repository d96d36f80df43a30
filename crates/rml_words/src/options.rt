//! The options that stand before the files.

ghost use Rattle.rml_words.specs.Reading.{cells_at, cells_unless, option_at, run_options, steps_at};
ghost use Rattle.rml_words.specs.View.{words_of};
ghost use Rattle.std.specs.Option.{option_map};
ghost use Rattle.std.specs.Prelude.{◌≡◌, ◌≤◌, IfSome};

use crate::number::number;
use rml_base::limits;

/// The number of the option of this name, if the option stands at the front, and the words after it. There is no answer where
/// its number is none from `low` to `high`.
#[tactic(auto, unfolding(crate::specs::Reading::option_at))]
fn option_at<'a>(
    words: &'a [String],
    name: &str,
    low: u64,
    high: u64,
) -> Option<(Option<u64>, &'a [String])>
    ensures read { option_map (λ found. (found.0, words_of found.1.now)) result ≡ option_at name.now low high (words_of words.now) }
    ensures within { IfSome result (λ found. IfSome found.0 (λ n. n ≤ high)) }
{
    let Some((word, rest)) = words.split_first() else {
        return Some((None, words));
    };
    if word.as_str() != name {
        return Some((None, words));
    }
    let (word, rest) = rest.split_first()?;
    let number = number(word.as_str(), low, high)?;
    Some((Some(number), rest))
}

/// The number of `--cells`, if it stands at the front, and the words after it.
pub fn cells_at<'a>(words: &'a [String]) -> Option<(Option<u32>, &'a [String])>
    ensures { option_map (λ found. (found.0, words_of found.1.now)) result ≡ cells_at (words_of words.now) }
{
    match option_at(words, "--cells", 1, u64::from(limits::CELLS))? {
        (Some(cells), rest) => Some((Some(cells as u32), rest)),
        (None, rest) => Some((None, rest)),
    }
}

/// The number of `--steps`, if it stands at the front, and the words after it.
pub fn steps_at<'a>(words: &'a [String]) -> Option<(Option<u64>, &'a [String])>
    ensures { option_map (λ found. (found.0, words_of found.1.now)) result ≡ steps_at (words_of words.now) }
{
    option_at(words, "--steps", 0, limits::STEPS)
}

/// The cells that are known, or the number of `--cells` at the front.
fn cells_unless<'a>(known: Option<u32>, words: &'a [String]) -> Option<(Option<u32>, &'a [String])>
    ensures { option_map (λ found. (found.0, words_of found.1.now)) result ≡ cells_unless known (words_of words.now) }
{
    match known {
        None => cells_at(words),
        Some(_) => Some((known, words)),
    }
}

/// The bounds on cells and steps of the options in front of the files, and the words after these.
#[tactic(auto, unfolding(crate::specs::Reading::run_options))]
pub fn run_options<'a>(words: &'a [String]) -> Option<(u32, u64, &'a [String])>
    ensures { option_map (λ found. (found.0, found.1, words_of found.2.now)) result ≡ run_options (words_of words.now) }
{
    let (before, rest) = cells_at(words)?;
    let (steps, rest) = steps_at(rest)?;
    let (cells, rest) = cells_unless(before, rest)?;
    Some((
        cells.unwrap_or(limits::DEFAULT_CELLS),
        steps.unwrap_or(limits::DEFAULT_STEPS),
        rest,
    ))
}
