//! What the lines directly above a figure name.

ghost use Rattle.std.specs.Prelude.{◌≡◌, IfOk, OnOk, drop};
ghost use Rattle.gf_fig_tokens.specs.Layout.{lines, words};
ghost use Rattle.gf_fig_named.specs.NamesAbove.{begins_further, begins_name, depth_of, ids_behind};
ghost use Rattle.gf_fig_named.specs.NamesAbove.{ids_of_name, is_at, name_above, named_at};
ghost use Rattle.gf_fig_named.specs.NamesAbove.{spelt_spot};
ghost use Rattle.gf_fig_named.specs.NamesAbove.{spelt_depth, spot_behind, told_of};

use crate::figures::is_silent;
use crate::spelling::{push_ids, spelt_id};
use crate::{Name, Named};
use gf_base::OutOfMemory;
use gf_fig_tokens::{cut_line, cut_word, whole};
use gf_ops::{Ids, ObjectId, OpId};
use std::alloc::Global;

/// How the comments begin that name a figure, and those that go on with its ids.
const NAME: &[u8] = b"# figgroup ";

const FURTHER: &[u8] = b"# figgroup with ";

/// The object and the depth that a comment tells.
#[derive(Clone, Copy)]
struct Spot {
    object: ObjectId,
    depth: u16,
}

/// What the lines without tokens name with which a text begins.
pub(crate) fn name_above(alloc: Global, text: &[u8]) -> Result<Option<Named>, OutOfMemory>
    ensures { IfOk result (λ named. named ≡ name_above (lines text.now)) }
{
    let mut ids = Vec::new(alloc);
    let mut spot = None;
    let mut rest = text;
    while let Some((line, after)) = cut_line(rest) {
        if !is_silent(line) {
            return Ok(named_at(spot, ids));
        }
        spot = take_line(&mut ids, spot, line)?;
        rest = after;
    }
    Ok(named_at(spot, ids))
}

/// The name of what is told by comments, with these ids.
fn named_at(spot: Option<Spot>, ids: Vec<OpId>) -> Option<Named>
    ensures { result ≡ named_at spot ids.items }
{
    match spot {
        Some(spot) => Some(Named {
            name: Name {
                object: spot.object,
                telling: Ids::new(ids),
            },
            depth: spot.depth,
        }),
        None => None,
    }
}

/// Takes a line, which may name a figure, or go on with the ids of its name.
fn take_line(
    ids: &mut Vec<OpId>,
    spot: Option<Spot>,
    line: &[u8],
) -> Result<Option<Spot>, OutOfMemory>
    ensures spot { IfOk result (λ s. s ≡ spot_behind spot line.now) }
    ensures ids { OnOk result (ids.new.items ≡ ids_behind ids.old.items line.now) }
{
    if begins_further(line) {
        push_ids(ids, behind(line, FURTHER.len()))?;
        return Ok(spot);
    }
    if begins_name(line) {
        return take_name(ids, behind(line, NAME.len()));
    }
    Ok(spot)
}

fn begins_further(line: &[u8]) -> bool
    ensures { result ≡ begins_further line.now }
{
    line.starts_with(FURTHER)
}

fn begins_name(line: &[u8]) -> bool
    ensures { result ≡ begins_name line.now }
{
    line.starts_with(NAME)
}

/// What stands on a line behind so many bytes.
fn behind(line: &[u8], count: usize) -> &[u8]
    ensures { result.now ≡ drop count line.now }
{
    if line.len() < count {
        b""
    } else {
        &line[count..]
    }
}

/// Takes a name: its object, the word `at`, its depth, and its ids in place of those before.
fn take_name(ids: &mut Vec<OpId>, name: &[u8]) -> Result<Option<Spot>, OutOfMemory>
    ensures spot { IfOk result (λ s. s ≡ spelt_spot (words name.now)) }
    ensures ids { OnOk result (ids.new.items ≡ ids_of_name (words name.now)) }
{
    ids.clear();
    let Some((object, rest)) = cut_word(name) else {
        return Ok(None);
    };
    let Some((at, rest)) = cut_word(rest) else {
        return Ok(None);
    };
    let Some((depth, rest)) = cut_word(rest) else {
        return Ok(None);
    };
    push_ids(ids, rest)?;
    Ok(told_of(object, at, depth))
}

/// What the first three words of a name tell.
fn told_of(object: &[u8], at: &[u8], depth: &[u8]) -> Option<Spot>
    ensures { result ≡ told_of object.now at.now depth.now }
{
    if !is_at(at) {
        return None;
    }
    match (spelt_id(object), spelt_depth(depth)) {
        (Some(object), Some(depth)) => Some(Spot {
            object: ObjectId(object),
            depth,
        }),
        _ => None,
    }
}

fn is_at(word: &[u8]) -> bool
    ensures { result ≡ is_at word.now }
{
    word == b"at".as_slice()
}

/// The depth that a word spells, 0 to 999.
fn spelt_depth(word: &[u8]) -> Option<u16>
    ensures { result ≡ spelt_depth word.now }
{
    match whole(word) {
        Some(depth) => depth_of(depth),
        None => None,
    }
}

/// A number that lies between 0 and 999.
#[tactic(auto, using(std::proofs::lemmas::Int::ints))]
fn depth_of(number: i64) -> Option<u16>
    ensures { result ≡ depth_of number }
{
    if 0 <= number && number <= 999 {
        Some(number as u16)
    } else {
        None
    }
}
