//! Words of comments.

ghost use Rattle.std.specs.Prelude.{◌≡◌, ◌++◌, OnOk};
ghost use Rattle.gf_fig_named.specs.Spelling.{counted, is_site_digit, spelt_id, spelt_ids};
ghost use Rattle.gf_fig_named.specs.Spelling.{spelt_number};

use gf_base::OutOfMemory;
use gf_fig_tokens::{cut_word, whole};
use gf_ops::OpId;

/// Appends the ids that the words of a text spell.
pub(crate) fn push_ids(ids: &mut Vec<OpId>, text: &[u8]) -> Result<(), OutOfMemory>
    ensures { OnOk result (ids.new.items ≡ ids.old.items ++ spelt_ids text.now) }
{
    let mut rest = text;
    while let Some((word, after)) = cut_word(rest) {
        if let Some(id) = spelt_id(word) {
            ids.push(id)?;
        }
        rest = after;
    }
    Ok(())
}

/// The id that a word spells: a site, 1 to 8, and a number, 1 to 10,000.
pub(crate) fn spelt_id(word: &[u8]) -> Option<OpId>
    ensures { result ≡ spelt_id word.now }
{
    match word {
        [site, point, seq @ ..] if is_site_digit(*site) && *point == b'.' => {
            match spelt_number(seq, 10_000) {
                Some(seq) => Some(OpId {
                    site: *site - b'0',
                    seq,
                }),
                None => None,
            }
        }
        _ => None,
    }
}

fn is_site_digit(b: u8) -> bool
    ensures { result ≡ is_site_digit b }
{
    b'1' <= b && b <= b'8'
}

/// The number from 1 to `most` that a word spells.
pub(crate) fn spelt_number(word: &[u8], most: u32) -> Option<u32>
    ensures { result ≡ spelt_number most word.now }
{
    match whole(word) {
        Some(number) => counted(number, most),
        None => None,
    }
}

/// A number that lies between 1 and `most`.
#[tactic(auto, using(std::proofs::lemmas::Int::ints))]
fn counted(number: i64, most: u32) -> Option<u32>
    ensures { result ≡ counted most number }
{
    if 1 <= number && number <= i64::from(most) {
        Some(number as u32)
    } else {
        None
    }
}
