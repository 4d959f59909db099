//! The visible versions of an object that hold some operations.

ghost use Rattle.std.specs.Prelude.{◌≡◌, IfOk, IfNone, IfSome, filter};
ghost use Rattle.std.specs.List.{list_all, list_any};
ghost use Rattle.gf_groups.specs.VersionList.{id_eq};
ghost use Rattle.gf_groups.specs.Versions.{IsMade};
ghost use Rattle.gf_versions.specs.declared.ranking.TheConstants.{MOST_VERSIONS};
ghost use Rattle.gf_visible.specs.ShownVersions.{HasMoreOn};
ghost use Rattle.gf_keep.specs.Keeping.{AreKept};
ghost use Rattle.gf_keep.specs.KeepSteps.{has_all};

use crate::Keep;
use gf_base::OutOfMemory;
use gf_groups::{Group, sort_groups};
use gf_listing::Versions;
use gf_ops::{History, OpId};
use gf_table::IndexedHistory;
use gf_versions::MOST_VERSIONS;
use gf_visible::visible_groups;
use std::alloc::Global;

/// The visible versions that are kept, rising by their ids as a dictionary orders them. None where
/// more than 1,000 versions of the object are visible.
pub(crate) fn kept_groups(
    alloc: Global,
    history: &History,
    keep: &Keep,
) -> Result<Option<Vec<Group>>, OutOfMemory>
    requires { IsMade history.now.ops keep.now.object }
    ensures kept { IfOk result (λ found.
        IfSome found (λ groups. AreKept history.now.ops keep.now groups.items)) }
    ensures few { IfOk result (λ found.
        IfSome found (λ _. ¬ (HasMoreOn history.now.ops keep.now.object MOST_VERSIONS))) }
    ensures more { IfOk result (λ found.
        IfNone found (HasMoreOn history.now.ops keep.now.object MOST_VERSIONS)) }
{
    let indexed = IndexedHistory::of(alloc, history)?;
    kept_of(alloc, &Versions::of(&indexed), keep)
}

/// The same, of a history with its table.
fn kept_of(
    alloc: Global,
    versions: &Versions<'_>,
    keep: &Keep,
) -> Result<Option<Vec<Group>>, OutOfMemory>
    requires { IsMade versions.now keep.now.object }
    ensures kept { IfOk result (λ found.
        IfSome found (λ groups. AreKept versions.now keep.now groups.items)) }
    ensures few { IfOk result (λ found.
        IfSome found (λ _. ¬ (HasMoreOn versions.now keep.now.object MOST_VERSIONS))) }
    ensures more { IfOk result (λ found.
        IfNone found (HasMoreOn versions.now keep.now.object MOST_VERSIONS)) }
{
    let Some(groups) = visible_groups(alloc, versions, keep.object, MOST_VERSIONS)? else {
        return Ok(None);
    };
    let mut kept = those_with(alloc, groups, keep.with.as_slice())?;
    sort_groups(&mut kept)?;
    Ok(Some(kept))
}

/// The groups that have all of the ids.
fn those_with(alloc: Global, groups: Vec<Group>, ids: &[OpId]) -> Result<Vec<Group>, OutOfMemory>
    ensures { IfOk result (λ kept. kept.items ≡ filter (has_all ids.now) groups.items) }
{
    let mut kept = Vec::new(alloc);
    for group in groups {
        if has_all(&group, ids) {
            kept.push(group)?;
        }
    }
    Ok(kept)
}

/// Whether a group has all of the ids.
fn has_all(group: &Group, ids: &[OpId]) -> bool
    ensures { result ≡ has_all ids.now group.now }
{
    are_all_in(group.ops.as_slice(), ids)
}

/// Whether all of the ids are among others.
fn are_all_in(others: &[OpId], ids: &[OpId]) -> bool
    ensures { result ≡ list_all (λ i. list_any (id_eq i) others.now) ids.now }
{
    ids.iter().all(|id| is_in(others, *id))
}

/// Whether an id is among others.
fn is_in(others: &[OpId], id: OpId) -> bool
    ensures { result ≡ list_any (id_eq id) others.now }
{
    others
        .iter()
        .any(|other| id.site == other.site && id.seq == other.seq)
}
