//! The text of a status in words.

ghost use Rattle.std.specs.Prelude.{◌≡◌, ◌++◌, [], IfOk, OnOk, cond, flat_map, map, nat_le};
ghost use Rattle.gf_ops.specs.declared.op.Op.{Op};
ghost use Rattle.gf_status.specs.StatusLines.{attribute_word, changed_line, crossed_line};
ghost use Rattle.gf_status.specs.StatusLines.{difference_line, drawing_line, has_line};
ghost use Rattle.gf_status.specs.StatusLines.{has_versions_line, hidden_line, hidings_line};
ghost use Rattle.gf_status.specs.StatusLines.{many_line, more_ids_text, number_text};
ghost use Rattle.gf_status.specs.StatusLines.{object_lines, site_line, site_lines, status_text};
ghost use Rattle.gf_status.specs.StatusLines.{versions_line, waiting_line, waits_line};

use crate::counting::shown_in;
use crate::{Difference, ObjectStatus};
use gf_base::{OutOfMemory, push_number};
use gf_causal::waits_for;
use gf_ops::{Attr, History, ObjectId, Op, OpId, push_id, push_spaced_ids};
use gf_versions::MOST_VERSIONS;
use std::alloc::{AllocError, Global};

/// The numbers of all sites.
pub(crate) const SITES: [u8; 8] = [1, 2, 3, 4, 5, 6, 7, 8];

/// The text of a status in words: of a history, of what waits behind it, and of its objects.
pub(crate) fn status_text(
    alloc: Global,
    history: &History,
    waiting: &[&Op],
    statuses: &[ObjectStatus],
) -> Result<Vec<u8>, OutOfMemory>
    ensures { IfOk result (λ text. text.items
        ≡ status_text history.now.ops (map (λ a. a.now) waiting.now) statuses.now) }
{
    let mut out = Vec::new(alloc);
    push_sites(&mut out, history, &SITES)?;
    push_waiting(&mut out, history, waiting)?;
    push_objects(&mut out, statuses)?;
    push_drawing(&mut out, shown_in(statuses))?;
    Ok(out)
}

/// Appends a line for each of the sites that has operations.
fn push_sites(out: &mut Vec<u8>, history: &History, sites: &[u8]) -> Result<(), AllocError>
    ensures { OnOk result (out.new.items
        ≡ out.old.items ++ flat_map (site_line history.now.ops) sites.now) }
{
    for site in sites {
        push_site(out, *site, history.count(*site))?;
    }
    Ok(())
}

/// Appends the line of a site with this many operations, if it has some.
fn push_site(out: &mut Vec<u8>, site: u8, count: u32) -> Result<(), AllocError>
    ensures { OnOk result (out.new.items
        ≡ out.old.items ++ cond (nat_le 1 count) (has_line site count) []) }
{
    if 1 <= count {
        push_has(out, site, count)?;
    }
    Ok(())
}

/// Appends that a site has this many operations.
#[tactic(auto, unfolding(crate::specs::StatusLines::has_line))]
fn push_has(out: &mut Vec<u8>, site: u8, count: u32) -> Result<(), AllocError>
    ensures { OnOk result (out.new.items ≡ out.old.items ++ has_line site count) }
{
    out.extend_from_slice(b"site ")?;
    push_number(out, site)?;
    out.extend_from_slice(b" has ")?;
    push_number(out, count)?;
    out.push(b'\n')?;
    Ok(())
}

/// Appends a line for each operation that waits.
fn push_waiting(out: &mut Vec<u8>, history: &History, waiting: &[&Op]) -> Result<(), AllocError>
    ensures { OnOk result (out.new.items ≡ out.old.items
        ++ flat_map (waiting_line history.now.ops) (map (λ a. a.now) waiting.now)) }
{
    for op in waiting {
        push_waits(out, op.id, waits_for(history, op))?;
    }
    Ok(())
}

/// Appends that an operation waits for another one.
#[tactic(auto, unfolding(crate::specs::StatusLines::waits_line))]
fn push_waits(out: &mut Vec<u8>, id: OpId, missing: OpId) -> Result<(), AllocError>
    ensures { OnOk result (out.new.items ≡ out.old.items ++ waits_line id missing) }
{
    out.extend_from_slice(b"operation ")?;
    push_id(out, id)?;
    out.extend_from_slice(b" waits for ")?;
    push_id(out, missing)?;
    out.push(b'\n')?;
    Ok(())
}

/// Appends the lines of all objects.
fn push_objects(out: &mut Vec<u8>, statuses: &[ObjectStatus]) -> Result<(), AllocError>
    ensures { OnOk result (out.new.items
        ≡ out.old.items ++ flat_map object_lines statuses.now) }
{
    for status in statuses {
        push_object(out, status)?;
    }
    Ok(())
}

/// Appends the lines of an object.
fn push_object(out: &mut Vec<u8>, status: &ObjectStatus) -> Result<(), AllocError>
    ensures { OnOk result (out.new.items ≡ out.old.items ++ object_lines status.now) }
{
    push_versions(out, status.object, status.versions, status.shown)?;
    push_differences(out, status.object, &status.differences)?;
    push_hidings(out, status.object, status.hidings.as_slice())?;
    push_hidden(out, status.object, status.changed.as_slice())
}

/// Appends how many versions an object has, if it has more than one.
fn push_versions(
    out: &mut Vec<u8>,
    object: ObjectId,
    versions: usize,
    shown: usize,
) -> Result<(), AllocError>
    ensures { OnOk result (out.new.items
        ≡ out.old.items ++ versions_line object versions shown) }
{
    if 2 <= versions {
        push_has_versions(out, object, versions, shown)?;
    }
    Ok(())
}

/// Appends how many versions an object has, and how many are shown.
#[tactic(auto, unfolding(crate::specs::StatusLines::has_versions_line))]
fn push_has_versions(
    out: &mut Vec<u8>,
    object: ObjectId,
    versions: usize,
    shown: usize,
) -> Result<(), AllocError>
    ensures { OnOk result (out.new.items
        ≡ out.old.items ++ has_versions_line object versions shown) }
{
    out.extend_from_slice(b"object ")?;
    push_id(out, object.0)?;
    out.extend_from_slice(b" has ")?;
    push_count(out, versions)?;
    out.extend_from_slice(b" versions, ")?;
    push_count(out, shown)?;
    out.extend_from_slice(b" shown\n")?;
    Ok(())
}

/// Appends a count, up to 1,000.
fn push_count(out: &mut Vec<u8>, count: usize) -> Result<(), AllocError>
    ensures { OnOk result (out.new.items ≡ out.old.items ++ number_text count) }
{
    if count <= MOST_VERSIONS {
        push_number(out, count)
    } else {
        out.extend_from_slice(b"more than 1000")
    }
}

/// Appends a line for each attribute that differs.
fn push_differences(
    out: &mut Vec<u8>,
    object: ObjectId,
    differences: &[Difference],
) -> Result<(), AllocError>
    ensures { OnOk result (out.new.items
        ≡ out.old.items ++ flat_map (difference_line object) differences.now) }
{
    for difference in differences {
        push_difference(out, object, difference)?;
    }
    Ok(())
}

/// Appends the line of an attribute that differs.
#[tactic(auto, unfolding(crate::specs::StatusLines::difference_line))]
fn push_difference(
    out: &mut Vec<u8>,
    object: ObjectId,
    difference: &Difference,
) -> Result<(), AllocError>
    ensures { OnOk result (out.new.items
        ≡ out.old.items ++ difference_line object difference.now) }
{
    out.extend_from_slice(b"object ")?;
    push_id(out, object.0)?;
    out.push(b' ')?;
    out.extend_from_slice(attribute_word(difference.attribute).as_bytes())?;
    push_spaced_ids(out, difference.givers.as_slice())?;
    out.push(b'\n')?;
    Ok(())
}

pub(crate) fn attribute_word(attribute: Attr) -> &'static str
    ensures { result.now ≡ attribute_word attribute }
{
    match attribute {
        Attr::Place => "place",
        Attr::Points => "points",
        Attr::Size => "size",
        Attr::Colour => "colour",
        Attr::Layer => "layer",
        Attr::Shown => "shown",
    }
}

/// Appends that the hidings of an object crossed, if they are two or more.
fn push_hidings(out: &mut Vec<u8>, object: ObjectId, hidings: &[OpId]) -> Result<(), AllocError>
    ensures { OnOk result (out.new.items ≡ out.old.items ++ hidings_line object hidings.now) }
{
    match hidings {
        [] | [_] => Ok(()),
        [first, others @ ..] => push_crossed(out, object, *first, others),
    }
}

/// Appends that an object is hidden by this operation and by these others.
#[tactic(auto, unfolding(crate::specs::StatusLines::crossed_line))]
fn push_crossed(
    out: &mut Vec<u8>,
    object: ObjectId,
    first: OpId,
    others: &[OpId],
) -> Result<(), AllocError>
    ensures { OnOk result (out.new.items ≡ out.old.items ++ crossed_line object first others.now) }
{
    out.extend_from_slice(b"object ")?;
    push_id(out, object.0)?;
    out.extend_from_slice(b" hidden by ")?;
    push_id(out, first)?;
    push_more_ids(out, others)?;
    out.push(b'\n')?;
    Ok(())
}

/// Appends ids, with ` and ` before each.
fn push_more_ids(out: &mut Vec<u8>, ids: &[OpId]) -> Result<(), AllocError>
    ensures { OnOk result (out.new.items ≡ out.old.items ++ more_ids_text ids.now) }
{
    for id in ids {
        out.extend_from_slice(b" and ")?;
        push_id(out, *id)?;
    }
    Ok(())
}

/// Appends which operations changed what is hidden of an object, if there are such operations.
fn push_hidden(out: &mut Vec<u8>, object: ObjectId, changed: &[OpId]) -> Result<(), AllocError>
    ensures { OnOk result (out.new.items ≡ out.old.items ++ hidden_line object changed.now) }
{
    match changed {
        [] => Ok(()),
        [_, ..] => push_changed(out, object, changed),
    }
}

/// Appends which operations changed what is hidden of an object.
#[tactic(auto, unfolding(crate::specs::StatusLines::changed_line))]
fn push_changed(out: &mut Vec<u8>, object: ObjectId, changed: &[OpId]) -> Result<(), AllocError>
    ensures { OnOk result (out.new.items ≡ out.old.items ++ changed_line object changed.now) }
{
    out.extend_from_slice(b"object ")?;
    push_id(out, object.0)?;
    out.extend_from_slice(b" hidden, changed by")?;
    push_spaced_ids(out, changed)?;
    out.push(b'\n')?;
    Ok(())
}

/// Appends that more versions are shown than a drawing has, if their count is above that.
fn push_drawing(out: &mut Vec<u8>, shown: usize) -> Result<(), AllocError>
    ensures { OnOk result (out.new.items ≡ out.old.items ++ drawing_line shown) }
{
    if MOST_VERSIONS < shown {
        push_many(out)?;
    }
    Ok(())
}

/// Appends the line that more versions are shown than a drawing has.
#[tactic(auto, unfolding(crate::specs::StatusLines::many_line))]
fn push_many(out: &mut Vec<u8>) -> Result<(), AllocError>
    ensures { OnOk result (out.new.items ≡ out.old.items ++ many_line) }
{
    out.extend_from_slice(b"drawing has more than 1000 versions shown\n")
}
