//! How many keys a line has, and the words at them.

ghost use Rattle.std.specs.Prelude.{◌≡◌, option_and_then, option_copied};
ghost use Rattle.serde_json.specs.View.{view};
ghost use Rattle.serde_json.specs.Find.{get, as_object, as_str};
ghost use Rattle.gf_json.specs.LineKeys.{has_count, says, is_word};
ghost use Rattle.gf_json.specs.ReadLines.{tells};

use serde_json::Value;

/// Whether the line has this many keys, and this word as its verb.
pub(crate) fn tells(line: &Value, count: usize, verb: &str, word: &str) -> bool
    ensures { result ≡ tells count verb.now word.now (view line.now) }
{
    has_count(line, count) && says(line, verb, word)
}

/// Whether the line has this word at the key.
pub fn says(line: &Value, key: &str, word: &str) -> bool
    ensures { result ≡ says key.now word.now (view line.now) }
{
    is_word(word_at(line, key), word)
}

/// The string at the key.
pub(crate) fn word_at<'v>(line: &'v Value, key: &str) -> Option<&'v str>
    ensures { option_copied result ≡ option_and_then as_str (get key.now (view line.now)) }
{
    line.get(key)?.as_str()
}

pub(crate) fn is_word(found: Option<&str>, word: &str) -> bool
    ensures { result ≡ is_word word.now (option_copied found.entry) }
{
    match found {
        Some(text) => text == word,
        None => false,
    }
}

/// Whether the line is an object with this many keys.
#[tactic(auto, using(crate::proofs::KeyLemmas::counts))]
pub fn has_count(line: &Value, count: usize) -> bool
    ensures { result ≡ has_count count (as_object (view line.now)) }
{
    match line.as_object() {
        Some(members) => members.len() == count,
        None => false,
    }
}
