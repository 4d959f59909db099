//! The fields of an object, by their index.

ghost use Rattle.std.specs.Prelude.{◌≡◌, ◌-◌, drop};
ghost use Rattle.gf_fig_tokens.specs.Layout.{lines};

use gf_fig_tokens::{cut_line, cut_word, is_comment, whole};

/// The text from the line of this number on, counted from 1.
pub(crate) fn from_line(text: &[u8], line: u64) -> &[u8]
    ensures { lines result.now ≡ drop (line - 1) (lines text.now) }
{
    let mut left = text;
    for _ in 0..line.saturating_sub(1) {
        match cut_line(left) {
            Some((_, rest)) => left = rest,
            None => return left,
        }
    }
    left
}

/// The whole number in the field of this index, counted from 0, of the object that a text begins
/// with.
pub(crate) fn number_at(object: &[u8], index: usize) -> Option<i64> {
    whole(field_at(object, index)?)
}

/// The field of this index, counted from 0, of the object that a text begins with.
fn field_at(object: &[u8], index: usize) -> Option<&[u8]> {
    let mut left = object;
    let mut before = index;
    while let Some((line, rest)) = cut_line(left) {
        if !is_comment(line) {
            match word_at(line, before) {
                Ok(word) => return Some(word),
                Err(behind) => before = behind,
            }
        }
        left = rest;
    }
    None
}

/// The word of this index in a line, or how many words are to be left out behind the line.
fn word_at(line: &[u8], index: usize) -> Result<&[u8], usize> {
    let mut left = line;
    let mut before = index;
    while let Some((word, rest)) = cut_word(left) {
        if before == 0 {
            return Ok(word);
        }
        before -= 1;
        left = rest;
    }
    Err(before)
}
