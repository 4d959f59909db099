//! The groups of the visible versions of one object, listed unless they are too many.

ghost use Rattle.std.specs.Prelude.{◌≤◌, ◌∷◌, [], length, Contains, IfNone, IfOk, IfSome};
ghost use Rattle.std.specs.Prelude.{option_map};
ghost use Rattle.gf_groups.specs.Versions.{IsMade};
ghost use Rattle.gf_versions.specs.declared.ranking.TheConstants.{MOST_VERSIONS};
ghost use Rattle.gf_visible.specs.ShownVersions.{AreVisibleOn, HasMoreOn};
ghost use Rattle.gf_visible.specs.VisibleSoFar.{HaveVisibleOf, IsGroupListing};

use crate::listing::shown_sets;
use gf_base::OutOfMemory;
use gf_groups::{Group, GroupFault, add_groups};
use gf_listing::Versions;
use gf_ops::{Change, ObjectId, Op};
use gf_versions::MOST_VERSIONS;
use std::alloc::Global;

/// The groups of the visible versions of an object that the history made, each once. None where
/// they are more than `most`.
///
/// The operations are first put into classes with the same rivals. Sets of classes grow class by
/// class, and those that can't show any more are dropped, so the call stops beyond `most`. Where
/// aims join what hides with what shows, a search over the classes that decide comes first. No time
/// is promised for it.
pub fn visible_groups(
    alloc: Global,
    versions: &Versions<'_>,
    object: ObjectId,
    most: usize,
) -> Result<Option<Vec<Group>>, OutOfMemory>
    requires made { IsMade versions.now object }
    requires most { most ≤ MOST_VERSIONS }
    ensures groups { IfOk result (λ found.
        IfSome found (λ groups. AreVisibleOn versions.now object groups.items)) }
    ensures few { IfOk result (λ found. IfSome found (λ groups. length groups.items ≤ most)) }
    ensures more { IfOk result (λ found. IfNone found (HasMoreOn versions.now object most)) }
{
    let history = versions.history();
    let classes = versions.classes(alloc, object)?;
    let Some(sets) = shown_sets(alloc, history, object, &classes, most)? else {
        return Ok(None);
    };
    let mut groups = Vec::new(alloc);
    add_groups(alloc, history, object, sets, &mut groups)?;
    Ok(Some(groups))
}

/// The groups of the visible versions of the object that an operation of the history made, if it
/// made one.
pub(crate) fn visible_made(
    alloc: Global,
    versions: &Versions<'_>,
    op: &Op,
    most: usize,
) -> Result<Option<Vec<Group>>, OutOfMemory>
    requires contained { Contains versions.now op.now }
    requires most { most ≤ MOST_VERSIONS }
    ensures { IfOk result (λ found.
        IsGroupListing versions.now (op.now ∷ []) most (option_map (λ v. v.items) found)) }
{
    match &op.change {
        Change::Create(_) => visible_groups(alloc, versions, ObjectId(op.id), most),
        Change::Set { .. } => Ok(Some(Vec::new(alloc))),
    }
}

/// The groups of the versions of the object that an operation of the history made, if it made
/// one.
fn versions_made(alloc: Global, versions: &Versions<'_>, op: &Op) -> Result<Vec<Group>, OutOfMemory>
    requires contained { Contains versions.now op.now }
    ensures { IfOk result (λ groups.
        HaveVisibleOf versions.now (op.now ∷ []) groups.items) }
{
    match &op.change {
        Change::Create(_) => match versions.groups(alloc, ObjectId(op.id)) {
            Ok(groups) => Ok(groups.into_vec()),
            Err(GroupFault::NoObject) => unreachable!(),
            Err(GroupFault::OutOfMemory) => Err(OutOfMemory),
        },
        Change::Set { .. } => Ok(Vec::new(alloc)),
    }
}

/// The groups of the versions of an object, if an operation of the history made it. They are the
/// visible ones where these are at most [`MOST_VERSIONS`], and else all.
pub(crate) fn visible_or_all(
    alloc: Global,
    versions: &Versions<'_>,
    op: &Op,
) -> Result<Vec<Group>, OutOfMemory>
    requires contained { Contains versions.now op.now }
    ensures { IfOk result (λ groups. HaveVisibleOf versions.now (op.now ∷ []) groups.items) }
{
    match visible_made(alloc, versions, op, MOST_VERSIONS)? {
        Some(groups) => Ok(groups),
        None => versions_made(alloc, versions, op),
    }
}
