//! The largest compatible sets of an object's positions that show, listed unless they are too many.

ghost use Rattle.std.specs.Prelude.{◌≡◌, ◌≤◌, ◌<◌, ℕ, length, Contains, IfOk, filter, option_map};
ghost use Rattle.std.specs.Prelude.{◌-◌, ◌^◌, map, true};
ghost use Rattle.gf_classes.specs.ConflictClasses.{AreClassesOf};
ghost use Rattle.gf_table.specs.Positions.{positions_on};
ghost use Rattle.gf_groups.specs.Versions.{IsMade};
ghost use Rattle.gf_maximal.specs.Classes.{spread};
ghost use Rattle.gf_maximal.specs.Rows.{conflict};
ghost use Rattle.gf_ops.specs.OperationOrder.{IsSite};
ghost use Rattle.gf_versions.specs.declared.ranking.TheConstants.{MOST_VERSIONS};
ghost use Rattle.gf_visible.specs.ClassSays.{are_sides, covers, hides, is_other, said};
ghost use Rattle.gf_visible.specs.ClassListing.{AreDeciding, AreHiders, IsLead};
ghost use Rattle.gf_visible.specs.ShownSets.{IsSetListing, IsShowingListing};

use crate::growing::{Partial, grown, keep_seen};
use crate::says::all_says;
use crate::setters::set_of;
use crate::showing_within;
use crate::timeline::Timeline;
use gf_base::OutOfMemory;
use gf_maximal::{Classes, Numbers};
use gf_ops::{History, ObjectId};
use std::alloc::Global;

/// The sets that show, from those of the classes that were met first. No other class shows, or
/// conflicts with one that hides.
fn listed(
    alloc: Global,
    timeline: &Timeline<'_>,
    used: &Numbers,
    hiders: &[usize],
    partial: Partial,
    most: usize,
) -> Result<Option<Vec<Numbers>>, OutOfMemory>
    requires hiders { AreHiders timeline.now used.now hiders.now }
    requires lead { IsLead timeline.now used.now hiders.now partial.met partial.sets }
    ensures { IfOk result (λ found. IsShowingListing (hides timeline.now.says)
        (covers timeline.now.says) (conflict timeline.now.rows) used.now most
        (option_map (λ v. v.items) found)) }
{
    timeline.recall_rows();
    let rest = used.without(alloc, partial.met())?.to_vec(alloc)?;
    grown(alloc, timeline, hiders, partial, &rest, most)
}

/// The sets that show, where those that hide, and the others that matter, are two sides without a
/// conflict within.
fn by_sides(
    alloc: Global,
    timeline: &Timeline<'_>,
    used: &Numbers,
    hiders: &[usize],
    others: Numbers,
    most: usize,
) -> Result<Option<Vec<Numbers>>, OutOfMemory>
    requires hiders { AreHiders timeline.now used.now hiders.now }
    requires others { others
        ≡ filter (is_other timeline.now.rows timeline.now.says hiders.now) used.now }
    requires sides { are_sides timeline.now.rows timeline.now.says hiders.now others ≡ true }
    ensures { IfOk result (λ found. IsShowingListing (hides timeline.now.says)
        (covers timeline.now.says) (conflict timeline.now.rows) used.now most
        (option_map (λ v. v.items) found)) }
{
    timeline.recall_rows();
    let mut sets = Vec::new(alloc);
    sets.push(others.copy(alloc)?)?;
    let sets = keep_seen(alloc, timeline, hiders, sets)?;
    listed(
        alloc,
        timeline,
        used,
        hiders,
        Partial::new(others, sets),
        most,
    )
}

/// The classes that hide, show, or conflict with one that hides, in their order.
fn deciding_of(
    alloc: Global,
    timeline: &Timeline<'_>,
    used: &Numbers,
    hiders: &[usize],
    hiding: &Numbers,
) -> Result<Vec<usize>, OutOfMemory>
    requires hiders { AreHiders timeline.now used.now hiders.now }
    requires hiding { hiding.now ≡ hiders.now }
    ensures { IfOk result (λ found. AreDeciding timeline.now used.now hiders.now found.items) }
{
    timeline.recall_rows();
    let classes = used.to_vec(alloc)?;
    timeline.deciding(alloc, &classes, hiding)
}

/// The sets that show of any classes. A search over those that decide finds the first ones.
fn by_search(
    alloc: Global,
    timeline: &Timeline<'_>,
    used: &Numbers,
    hiders: &[usize],
    hiding: &Numbers,
    most: usize,
) -> Result<Option<Vec<Numbers>>, OutOfMemory>
    requires hiders { AreHiders timeline.now used.now hiders.now }
    requires hidden { hiders.now ≡ filter (hides timeline.now.says) used.now }
    requires hiding { hiding.now ≡ hiders.now }
    requires most { most < 2 ^ 64 - 1 }
    ensures { IfOk result (λ found. IsShowingListing (hides timeline.now.says)
        (covers timeline.now.says) (conflict timeline.now.rows) used.now most
        (option_map (λ v. v.items) found)) }
{
    timeline.recall_rows();
    let deciding = deciding_of(alloc, timeline, used, hiders, hiding)?;
    let found = showing_within(alloc, timeline, &deciding, most + 1)?;
    if found.len() > most {
        return Ok(None);
    }
    let met = set_of(alloc, &deciding)?;
    listed(
        alloc,
        timeline,
        used,
        hiders,
        Partial::new(met, found),
        most,
    )
}

/// The largest compatible sets of classes that show, each once, if they are at most `most`.
fn shown_classes(
    alloc: Global,
    timeline: &Timeline<'_>,
    used: &Numbers,
    most: usize,
) -> Result<Option<Vec<Numbers>>, OutOfMemory>
    requires sites { (k : ℕ) → Contains used.now k → hides timeline.now.says k ≡ true
        → IsSite (said timeline.now.says k).site }
    requires below { (k : ℕ) → Contains used.now k → k < length timeline.now.rows }
    requires most { most < 2 ^ 64 - 1 }
    ensures { IfOk result (λ found. IsShowingListing (hides timeline.now.says)
        (covers timeline.now.says) (conflict timeline.now.rows) used.now most
        (option_map (λ v. v.items) found)) }
{
    timeline.recall_rows();
    let classes = used.to_vec(alloc)?;
    let hiders = timeline.hiders(alloc, &classes)?;
    let hiding = set_of(alloc, &hiders)?;
    let others = timeline.others(alloc, &classes, &hiding)?;
    let other = set_of(alloc, &others)?;
    if timeline.are_sides(&hiders, &hiding, &others, &other) {
        by_sides(alloc, timeline, used, &hiders, other, most)
    } else {
        by_search(alloc, timeline, used, &hiders, &hiding, most)
    }
}

/// The largest compatible sets of an object's positions that show, each once, if they are at most
/// `most`. They are found as sets of classes.
pub(crate) fn shown_sets(
    alloc: Global,
    history: &History,
    object: ObjectId,
    classes: &Classes,
    most: usize,
) -> Result<Option<Vec<Numbers>>, OutOfMemory>
    requires classes { AreClassesOf history.now.ops (positions_on history.now.ops object)
        classes.now }
    requires made { IsMade history.now.ops object }
    requires most { most ≤ MOST_VERSIONS }
    ensures { IfOk result (λ found. IsSetListing history.now.ops
        (positions_on history.now.ops object) most (option_map (λ v. v.items) found)) }
{
    let says = all_says(alloc, history.ops(), classes.members())?;
    let used = classes.used(alloc)?;
    let timeline = Timeline::new(classes.rows(), &says);
    let found = shown_classes(alloc, &timeline, &used, most)?;
    spread_found(alloc, classes, found)
}

/// The found sets of classes as sets of their members.
fn spread_found(
    alloc: Global,
    classes: &Classes,
    found: Option<Vec<Numbers>>,
) -> Result<Option<Vec<Numbers>>, OutOfMemory>
    ensures { IfOk result (λ sets. option_map (λ v. v.items) sets
        ≡ option_map (map (spread classes.now)) (option_map (λ v. v.items) found)) }
{
    match found {
        Some(found) => Ok(Some(classes.spread_all(alloc, &found)?)),
        None => Ok(None),
    }
}
