//! Words that name files, and the arguments of a program.

ghost use Rattle.rml_words.specs.Forms.{is_argument, is_file};
ghost use Rattle.rml_words.specs.Reading.{arguments, file_at, files_at, one_file, only_files};
ghost use Rattle.rml_words.specs.View.{words_of};
ghost use Rattle.std.specs.List.{list_all, prefix_len};
ghost use Rattle.std.specs.Option.{option_map};
ghost use Rattle.std.specs.Prelude.{◌≡◌, string_bytes};

use rml_base::limits;

fn is_file(word: &str) -> bool
    ensures { result ≡ is_file word.now }
{
    !matches!(word.as_bytes(), [] | [b'-', b'-', ..])
}

fn are_files(words: &[String]) -> bool
    ensures { result ≡ list_all (λ word. is_file (string_bytes word)) words.now }
{
    words.iter().all(|word| is_file(word.as_str()))
}

fn are_arguments(words: &[String]) -> bool
    ensures { result ≡ list_all (λ word. is_argument (string_bytes word)) words.now }
{
    words.iter().all(|word| word.len() <= limits::ARGUMENT)
}

/// How many words at the front are files.
fn count_files(words: &[String]) -> usize
    ensures { result ≡ prefix_len (λ word. is_file (string_bytes word)) words.now }
{
    words
        .iter()
        .take_while(|word| is_file(word.as_str()))
        .count()
}

/// The one file that the words are.
pub fn one_file(words: &[String]) -> Option<&str>
    ensures { option_map (λ file. file.now) result ≡ one_file (words_of words.now) }
{
    match words {
        [file] if is_file(file.as_str()) => Some(file.as_str()),
        _ => None,
    }
}

/// The words, if each is a file and there is one.
pub fn only_files(words: &[String]) -> Option<&[String]>
    ensures { option_map (λ files. words_of files.now) result ≡ only_files (words_of words.now) }
{
    if 1 <= words.len() && are_files(words) {
        Some(words)
    } else {
        None
    }
}

/// The file at the front, and the words after it.
pub fn file_at<'a>(words: &'a [String]) -> Option<(&'a str, &'a [String])>
    ensures { option_map (λ found. (found.0.now, words_of found.1.now)) result ≡ file_at (words_of words.now) }
{
    let (file, rest) = words.split_first()?;
    if is_file(file.as_str()) {
        Some((file.as_str(), rest))
    } else {
        None
    }
}

/// The files at the front, at least one, and the words after them.
pub fn files_at<'a>(words: &'a [String]) -> Option<(&'a [String], &'a [String])>
    ensures { option_map (λ found. (words_of found.0.now, words_of found.1.now)) result ≡ files_at (words_of words.now) }
{
    let count = count_files(words);
    if 1 <= count {
        Some(words.split_at(count))
    } else {
        None
    }
}

/// The arguments behind `--`, or none where there are no words.
pub fn arguments<'a>(words: &'a [String]) -> Option<&'a [String]>
    ensures { option_map (λ given. words_of given.now) result ≡ arguments (words_of words.now) }
{
    let Some((dashes, rest)) = words.split_first() else {
        return Some(words);
    };
    if dashes.as_str() == "--" && are_arguments(rest) {
        Some(rest)
    } else {
        None
    }
}
