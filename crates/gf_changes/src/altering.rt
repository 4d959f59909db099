//! The changes of what stands in the drawing: places, sizes, points, colours, and what is hidden.

use crate::Target;
use crate::aiming::{MOST_AIMED, aim_to_keep, fewest, has_all, told_from};
use crate::comparing::{moved, points_from, size_of};
use crate::matching::{Candidate, Matching};
use crate::ranks::{ShownVersions, ranks_by_object};
use gf_base::OutOfMemory;
use gf_names::aim_at;
use gf_ops::{Attr, Change, Form, Ids, ObjectId, OpId, Start, Value};
use gf_shape::{AnyShape, Point};
use gf_table::IndexedHistory;
use gf_versions::Placed;
use std::alloc::Global;

/// The changes by which the versions of a history that are figures look like these, and those that
/// hide the others. Creations and layers are not among them.
pub fn alterations(
    alloc: Global,
    history: &IndexedHistory,
    versions: &[Placed<AnyShape>],
    targets: &[Target],
    matching: &Matching,
) -> Result<Vec<Change>, OutOfMemory> {
    let ranks = ranks_by_object(alloc, versions)?;
    let shown = ShownVersions {
        history,
        versions,
        ranks: &ranks,
    };
    let mut changes = Vec::new(alloc);
    for attribute in [Attr::Place, Attr::Size, Attr::Points, Attr::Colour] {
        let wishes = wishes_of(alloc, attribute, targets, matching)?;
        change_all(alloc, shown, wishes, &mut changes)?;
    }
    hide_all(alloc, shown, matching, &mut changes)?;
    Ok(changes)
}

/// What each version wants for an attribute, where its figure has another value of it.
fn wishes_of(
    alloc: Global,
    attribute: Attr,
    targets: &[Target],
    matching: &Matching,
) -> Result<Vec<Option<Value>>, OutOfMemory> {
    let mut wishes = Vec::with_capacity(alloc, matching.candidates.len())?;
    for version in matching.candidates.iter() {
        match figure_at(targets, version.figure) {
            Some(start) => wishes.push(wish_of(alloc, attribute, version, start)?)?,
            None => wishes.push(None)?,
        }
    }
    Ok(wishes)
}

/// What the figure at an index begins with.
fn figure_at(targets: &[Target], index: Option<usize>) -> Option<&Start> {
    match targets.get(index?) {
        Some(figure) => Some(&figure.start),
        None => None,
    }
}

/// The value of an attribute that a version wants, where its figure has another one. Layers come
/// later, and what is hidden has no figure.
fn wish_of(
    alloc: Global,
    attribute: Attr,
    version: &Candidate,
    new: &Start,
) -> Result<Option<Value>, OutOfMemory> {
    let old = &version.start;
    match attribute {
        Attr::Place if old.place == new.place => Ok(None),
        Attr::Place => Ok(place_of(version, new).map(Value::Place)),
        Attr::Size if old.form == new.form => Ok(None),
        Attr::Size => Ok(size_of(&new.form)),
        Attr::Points => points_of(alloc, version, new),
        Attr::Colour if old.colour == new.colour => Ok(None),
        Attr::Colour => Ok(Some(Value::Colour(new.colour))),
        Attr::Layer | Attr::Shown => Ok(None),
    }
}

/// Where a version is settled that looks like its figure; None for a polygon that wants other
/// points.
fn place_of(version: &Candidate, new: &Start) -> Option<Point> {
    match &new.form {
        Form::Polygon(_) => moved(&version.start, new, version.settled?),
        Form::Rect(..) | Form::Circle(_) | Form::Ellipse(..) => Some(new.place),
    }
}

/// The points that a version wants, where it is a polygon that was not moved whole.
fn points_of(
    alloc: Global,
    version: &Candidate,
    new: &Start,
) -> Result<Option<Value>, OutOfMemory> {
    match version.settled {
        Some(settled) if place_of(version, new).is_none() => points_from(alloc, settled, new),
        _ => Ok(None),
    }
}

/// Changes each version to what it wants. A change is aimed at what tells the versions that want
/// the value from those that do not.
pub(crate) fn change_all(
    alloc: Global,
    shown: ShownVersions<'_>,
    mut wishes: Vec<Option<Value>>,
    changes: &mut Vec<Change>,
) -> Result<(), OutOfMemory> {
    for index in 0..shown.versions.len() {
        let ids = told_by(alloc, shown, &wishes, index)?;
        if let Some(ids) = ids {
            let aim = aim_at(alloc, shown.history.history(), &ids)?;
            change_one(shown, &mut wishes, index, &ids, aim, changes)?;
        }
    }
    Ok(())
}

/// The fewest operations that tell a version, where it wants a value, from those of its object
/// that don't want this value.
fn told_by(
    alloc: Global,
    shown: ShownVersions<'_>,
    wishes: &[Option<Value>],
    index: usize,
) -> Result<Option<Vec<OpId>>, OutOfMemory> {
    let (Some(version), Some(Some(value))) = (shown.versions.get(index), wishes.get(index)) else {
        return Ok(None);
    };
    let others = others_of(alloc, shown, wishes, version.key.object, value)?;
    let told = told_from(alloc, shown, &version.key)?;
    Ok(Some(fewest(alloc, &told, &others)?))
}

/// The operations of each version of an object that doesn't want this value.
fn others_of<'a>(
    alloc: Global,
    shown: ShownVersions<'a>,
    wishes: &[Option<Value>],
    object: ObjectId,
    value: &Value,
) -> Result<Vec<&'a [OpId]>, OutOfMemory> {
    let mut others = Vec::new(alloc);
    for rank in shown.of_object(object) {
        let (version, wish) = (shown.versions.get(rank.index), wishes.get(rank.index));
        if let (Some(other), Some(wish)) = (version, wish) {
            if !wants(wish, value) {
                others.push(other.key.ops.as_slice())?;
            }
        }
    }
    Ok(others)
}

/// Whether a wish is for this value.
fn wants(wish: &Option<Value>, value: &Value) -> bool {
    match wish {
        Some(wished) => wished == value,
        None => false,
    }
}

/// Changes a version to what it wants, with all of its object that want the same and have these
/// operations. None of these wants it any more.
fn change_one(
    shown: ShownVersions<'_>,
    wishes: &mut [Option<Value>],
    index: usize,
    ids: &[OpId],
    aim: Ids,
    changes: &mut Vec<Change>,
) -> Result<(), OutOfMemory> {
    let (Some(version), Some(wish)) = (shown.versions.get(index), wishes.get_mut(index)) else {
        return Ok(());
    };
    let object = version.key.object;
    let Some(value) = wish.take() else {
        return Ok(());
    };
    for rank in shown.of_object(object) {
        let (version, wish) = (shown.versions.get(rank.index), wishes.get_mut(rank.index));
        if let (Some(other), Some(wish)) = (version, wish) {
            if wants(wish, &value) && has_all(other.key.ops.as_slice(), ids) {
                *wish = None;
            }
        }
    }
    changes.push(Change::Set { object, value, aim })?;
    Ok(())
}

/// Hides each version that is no figure.
fn hide_all(
    alloc: Global,
    shown: ShownVersions<'_>,
    matching: &Matching,
    changes: &mut Vec<Change>,
) -> Result<(), OutOfMemory> {
    for (index, version) in shown.versions.iter().enumerate() {
        let object = version.key.object;
        if first_without(shown, matching, object) == Some(index) {
            hide_of(alloc, shown, matching, object, changes)?;
        }
    }
    Ok(())
}

/// The index of the first version of an object that is no figure, if there is one.
fn first_without(shown: ShownVersions<'_>, matching: &Matching, object: ObjectId) -> Option<usize> {
    for rank in shown.of_object(object) {
        if !matching.has_figure(rank.index) {
            return Some(rank.index);
        }
    }
    None
}

/// Hides the versions of an object that are no figures, each by a change that is aimed at what no
/// version that stays has. The topmost version that stays is shown, so that it is still seen if
/// somebody hides it at the same time. If none stays, the object is hidden whole.
fn hide_of(
    alloc: Global,
    shown: ShownVersions<'_>,
    matching: &Matching,
    object: ObjectId,
    changes: &mut Vec<Change>,
) -> Result<(), OutOfMemory> {
    let Some(index) = first_with(shown, matching, object) else {
        changes.push(Change::set_shown(object, false, Ids::new(Vec::new(alloc))))?;
        return Ok(());
    };
    hide_each(alloc, shown, matching, object, changes)?;
    if let Some(version) = shown.versions.get(index) {
        let aim = aim_to_keep(alloc, shown.history, &version.key)?;
        if aim.as_slice().len() <= MOST_AIMED {
            changes.push(Change::set_shown(object, true, aim))?;
        }
    }
    Ok(())
}

/// The index of the first version of an object that is a figure, if there is one.
fn first_with(shown: ShownVersions<'_>, matching: &Matching, object: ObjectId) -> Option<usize> {
    for rank in shown.of_object(object) {
        if matching.has_figure(rank.index) {
            return Some(rank.index);
        }
    }
    None
}

/// Hides each version of an object that is no figure, aimed at what tells it from the others.
fn hide_each(
    alloc: Global,
    shown: ShownVersions<'_>,
    matching: &Matching,
    object: ObjectId,
    changes: &mut Vec<Change>,
) -> Result<(), OutOfMemory> {
    let mut wishes = Vec::with_capacity(alloc, shown.versions.len())?;
    for (index, version) in shown.versions.iter().enumerate() {
        if version.key.object == object && !matching.has_figure(index) {
            wishes.push(Some(Value::Shown(false)))?;
        } else {
            wishes.push(None)?;
        }
    }
    change_all(alloc, shown, wishes, changes)
}
