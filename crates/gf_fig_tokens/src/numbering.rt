//! The lines of a FIG text on which its tokens stand.

ghost use Rattle.std.specs.Prelude.{◌≡◌, ◌≤◌, ◌<◌, ◌+◌, ◌^◌, [], ◌∷◌, length, flat_map, slice_get};
ghost use Rattle.std.specs.Prelude.{MatchOption, IfSome};
ghost use Rattle.gf_fig_tokens.specs.Layout.{lines, words};
ghost use Rattle.gf_fig_tokens.specs.TokenLines.{plain_behind, repeated_number, token_lines};

use crate::layout::{cut_line, cut_word, is_comment};

/// How many lines a text has.
pub fn line_count(text: &[u8]) -> u64
    ensures { result ≡ length (lines text.now) }
{
    let mut rest = text;
    let mut count = 0u64;
    while let Some((_, after)) = cut_line(rest) {
        count += 1;
        rest = after;
    }
    count
}

/// The line of the token with this index behind the header, counted from 0.
pub fn token_line(text: &[u8], index: u64) -> Option<u64>
    ensures { result ≡ slice_get (token_lines text.now) index }
{
    let (before, rest) = cut_header(text)?;
    find_token(rest, before, index)
}

/// The first line that is no comment, with its number and what follows; `before` lines stand before
/// the text.
fn cut_numbered(text: &[u8], before: u64) -> Option<(u64, &[u8], &[u8])>
    requires few { before + length text.now < 2 ^ 64 }
    ensures lines { MatchOption result (plain_behind before text.now ≡ [])
        (λ cut. plain_behind before text.now
        ≡ (cut.0, cut.1.now) ∷ plain_behind cut.0 cut.2.now) }
    ensures few { IfSome result (λ cut. cut.0 + length cut.2.now ≤ before + length text.now) }
    ensures shorter { IfSome result (λ cut. length cut.2.now < length text.now) }
{
    let mut rest = text;
    let mut number = before;
    while let Some((line, after)) = cut_line(rest) {
        number += 1;
        if !is_comment(line) {
            return Some((number, line, after));
        }
        rest = after;
    }
    None
}

/// How many lines there are up to the end of the header, comments among them, and what follows.
#[tactic(auto, using(crate::proofs::LayoutLemmas::drop_more, crate::proofs::NumberingLemmas::no_tokens))]
fn cut_header(text: &[u8]) -> Option<(u64, &[u8])>
    ensures lines { MatchOption result (token_lines text.now ≡ [])
        (λ cut. token_lines text.now ≡ flat_map repeated_number (plain_behind cut.0 cut.1.now)) }
    ensures few { IfSome result (λ cut. cut.0 + length cut.1.now < 2 ^ 64) }
{
    let mut rest = cut_line(text)?.1;
    let mut number = 1u64;
    for _ in 0..7u32 {
        let (next, _, after) = cut_numbered(rest, number)?;
        number = next;
        rest = after;
    }
    Some((number, rest))
}

#[tactic(auto, using(crate::proofs::LayoutLemmas::few_words))]
fn count_words(line: &[u8]) -> u64
    ensures count { result ≡ length (words line.now) }
    ensures few { result ≤ length line.now }
{
    let mut rest = line;
    let mut count = 0u64;
    while let Some((_, after)) = cut_word(rest) {
        count += 1;
        rest = after;
    }
    count
}

/// The line of the token with this index in a text, where `before` lines stand before the text.
fn find_token(text: &[u8], before: u64, index: u64) -> Option<u64>
    requires few { before + length text.now < 2 ^ 64 }
    ensures { result
        ≡ slice_get (flat_map repeated_number (plain_behind before text.now)) index }
{
    let mut rest = text;
    let mut number = before;
    let mut left = index;
    while let Some((next, line, after)) = cut_numbered(rest, number) {
        let count = count_words(line);
        if left < count {
            return Some(next);
        }
        left -= count;
        number = next;
        rest = after;
    }
    None
}
