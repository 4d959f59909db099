//! A FIG text as lines and tokens, cut off one by one.

ghost use Rattle.std.specs.Prelude.{◌≡◌, ◌<◌, ◌≤◌, [], ◌∷◌, not, length, drop, MatchOption, IfSome};
ghost use Rattle.std.specs.Prelude.{Some, None};
ghost use Rattle.std.specs.List.{position_from, position_or_len};
ghost use Rattle.gf_fig_tokens.specs.Layout.{is_space, is_line_feed, is_comment, is_version, lines};
ghost use Rattle.gf_fig_tokens.specs.Layout.{words, plain};
ghost use Rattle.gf_fig_tokens.specs.Stepping.{after_blanks};

fn is_space(b: u8) -> bool
    ensures { result ≡ is_space b }
{
    b == b' ' || b == b'\t' || b == b'\r' || b == b'\n'
}

/// Whether a line is a comment.
pub fn is_comment(line: &[u8]) -> bool
    ensures { result ≡ is_comment line.now }
{
    line.starts_with(b"#")
}

pub(crate) fn is_version(text: &[u8]) -> bool
    ensures { result ≡ is_version text.now }
{
    text.starts_with(b"#FIG 3.2")
}

fn first_line_feed(text: &[u8]) -> Option<usize>
    ensures { result ≡ position_from is_line_feed 0 text.now }
{
    text.iter().position(|b| *b == b'\n')
}

fn first_blank(line: &[u8]) -> Option<usize>
    ensures { result ≡ position_from is_space 0 line.now }
{
    line.iter().position(|b| is_space(*b))
}

fn first_filled(line: &[u8]) -> Option<usize>
    ensures { result ≡ position_from (λ b. not (is_space b)) 0 line.now }
{
    line.iter().position(|b| !is_space(*b))
}

/// How many bytes stand before the first line feed, or in all.
#[tactic(auto, using(crate::proofs::LayoutLemmas::found_at, crate::proofs::LayoutLemmas::found_nowhere))]
fn line_len(text: &[u8]) -> usize
    ensures len { result ≡ position_or_len is_line_feed text.now }
    ensures within { result ≤ length text.now }
{
    match first_line_feed(text) {
        Some(index) => index,
        None => text.len(),
    }
}

/// How many bytes stand before the first blank, or in all.
#[tactic(auto, using(crate::proofs::LayoutLemmas::found_at, crate::proofs::LayoutLemmas::found_nowhere))]
fn word_len(line: &[u8]) -> usize
    ensures len { result ≡ position_or_len is_space line.now }
    ensures within { result ≤ length line.now }
{
    match first_blank(line) {
        Some(index) => index,
        None => line.len(),
    }
}

/// How many blanks a line begins with.
#[tactic(auto, using(crate::proofs::LayoutLemmas::found_at, crate::proofs::LayoutLemmas::found_nowhere))]
fn blanks_len(line: &[u8]) -> usize
    ensures len { result ≡ position_or_len (λ b. not (is_space b)) line.now }
    ensures within { result ≤ length line.now }
{
    match first_filled(line) {
        Some(index) => index,
        None => line.len(),
    }
}

/// What follows the first byte.
fn after_first(bytes: &[u8]) -> &[u8]
    ensures { result.now ≡ drop 1 bytes.now }
{
    match bytes {
        [] => bytes,
        [_, rest @ ..] => rest,
    }
}

fn after_blanks(line: &[u8]) -> &[u8]
    ensures { result.now ≡ after_blanks line.now }
{
    line.split_at(blanks_len(line)).1
}

/// The first line, and what follows the line feed that ends it.
#[tactic(auto, using(crate::proofs::LayoutLemmas::lines_cut, crate::proofs::LayoutLemmas::shorter))]
pub fn cut_line(text: &[u8]) -> Option<(&[u8], &[u8])>
    ensures lines { MatchOption result (lines text.now ≡ [])
        (λ cut. lines text.now ≡ cut.0.now ∷ lines cut.1.now) }
    ensures shorter { IfSome result (λ cut. length cut.1.now < length text.now) }
{
    if text.is_empty() {
        return None;
    }
    let (line, rest) = text.split_at(line_len(text));
    Some((line, after_first(rest)))
}

/// The first line that is no comment, and what follows it.
pub(crate) fn cut_plain_line(text: &[u8]) -> Option<(&[u8], &[u8])>
    ensures lines { MatchOption result (plain (lines text.now) ≡ [])
        (λ cut. plain (lines text.now) ≡ cut.0.now ∷ plain (lines cut.1.now)) }
    ensures shorter { IfSome result (λ cut. length cut.1.now < length text.now) }
{
    let mut rest = text;
    while let Some((line, after)) = cut_line(rest) {
        if !is_comment(line) {
            return Some((line, after));
        }
        rest = after;
    }
    None
}

/// The first token of a line, and what follows it.
#[tactic(auto, using(crate::proofs::LayoutLemmas::words_cut, crate::proofs::LayoutLemmas::words_done))]
pub fn cut_word(line: &[u8]) -> Option<(&[u8], &[u8])>
    ensures { MatchOption result (words line.now ≡ [])
        (λ cut. words line.now ≡ cut.0.now ∷ words cut.1.now) }
{
    let rest = after_blanks(line);
    if rest.is_empty() {
        return None;
    }
    Some(rest.split_at(word_len(rest)))
}
