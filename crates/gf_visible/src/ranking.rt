//! The visible versions of a history, ranked: all, or unless they are too many.

ghost use Rattle.std.specs.Prelude.{◌≤◌, length, IfNone, IfOk, IfSome, option_map};
ghost use Rattle.gf_visible.specs.ShownVersions.{HasMoreVisible};
ghost use Rattle.gf_visible.specs.VisibleSoFar.{HaveVisibleOf, IsGroupListing};
ghost use Rattle.gf_table.specs.Standing.{StandsFor};
ghost use Rattle.gf_versions.specs.declared.ranking.TheConstants.{MOST_VERSIONS};
ghost use Rattle.gf_versions.specs.Ranking.{AreRanked};

use crate::objects::{visible_made, visible_or_all};
use gf_base::OutOfMemory;
use gf_groups::Group;
use gf_listing::Versions;
use gf_ops::History;
use gf_shape::AnyShape;
use gf_table::{GroupTable, IndexedHistory};
use gf_versions::{Ranked, ranked_of};
use std::alloc::Global;

/// The versions that [`ranked_all`] gives, of a history alone. The call first copies the history
/// into an [`IndexedHistory`], which those who ask again keep.
pub fn ranked(alloc: Global, history: &History) -> Result<Ranked<AnyShape>, OutOfMemory>
    ensures { IfOk result (λ ranked. AreRanked history.now.ops ranked.items.items) }
{
    let indexed = IndexedHistory::of(alloc, history)?;
    ranked_all(alloc, &Versions::of(&indexed))
}

/// The versions that [`ranked_all`] gives, of a history and a table that stands for it.
pub fn ranked_with(
    alloc: Global,
    history: &History,
    table: &GroupTable,
) -> Result<Ranked<AnyShape>, OutOfMemory>
    requires { StandsFor history.now.ops table.now }
    ensures { IfOk result (λ ranked. AreRanked history.now.ops ranked.items.items) }
{
    ranked_all(alloc, &Versions::new(history, table))
}

/// The visible versions of a history, topmost first.
///
/// Of an object with at most 1,000 visible versions no others are listed.
pub fn ranked_all(alloc: Global, versions: &Versions<'_>) -> Result<Ranked<AnyShape>, OutOfMemory>
    ensures { IfOk result (λ ranked. AreRanked versions.now ranked.items.items) }
{
    let history = versions.history();
    let groups = groups_to_rank(alloc, versions)?;
    ranked_of(alloc, history, &groups)
}

/// The groups of versions among which are all visible ones.
fn groups_to_rank(alloc: Global, versions: &Versions<'_>) -> Result<Vec<Group>, OutOfMemory>
    ensures { IfOk result (λ groups.
        HaveVisibleOf versions.now versions.now groups.items) }
{
    let mut groups = Vec::new(alloc);
    for op in versions.ops() {
        let mut more = visible_or_all(alloc, versions, op)?;
        groups.append(&mut more)?;
    }
    Ok(groups)
}

/// The visible versions of a history, topmost first, if they are at most `most`; None where they
/// are more.
///
/// The call stops as soon as it has seen more. Sets that can't show are dropped, as in
/// [`visible_groups`](crate::visible_groups).
pub fn ranked_within(
    alloc: Global,
    versions: &Versions<'_>,
    most: usize,
) -> Result<Option<Ranked<AnyShape>>, OutOfMemory>
    requires { most ≤ MOST_VERSIONS }
    ensures ranked { IfOk result (λ found.
        IfSome found (λ ranked. AreRanked versions.now ranked.items.items)) }
    ensures few { IfOk result (λ found. IfSome found (λ ranked. length ranked.items.items ≤ most)) }
    ensures more { IfOk result (λ found. IfNone found (HasMoreVisible versions.now most)) }
{
    let history = versions.history();
    let Some(groups) = all_visible(alloc, versions, most)? else {
        return Ok(None);
    };
    let ranked = ranked_of(alloc, history, &groups)?;
    Ok(Some(ranked))
}

/// The groups of all visible versions, if they are at most `most`.
fn all_visible(
    alloc: Global,
    versions: &Versions<'_>,
    most: usize,
) -> Result<Option<Vec<Group>>, OutOfMemory>
    requires { most ≤ MOST_VERSIONS }
    ensures { IfOk result (λ found.
        IsGroupListing versions.now versions.now most (option_map (λ v. v.items) found)) }
{
    let mut groups = Vec::new(alloc);
    for op in versions.ops() {
        match visible_made(alloc, versions, op, most - groups.len())? {
            Some(mut more) => groups.append(&mut more)?,
            None => return Ok(None),
        }
    }
    Ok(Some(groups))
}
