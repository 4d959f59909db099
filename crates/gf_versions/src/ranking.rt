//! The visible versions among some groups, made and sorted.

ghost use Rattle.std.specs.Prelude.{◌≡◌, ◌≢◌, ◌≤◌, ◌&&◌, AllPairs, IsTrue, IfOk, OnOk, Contains};
ghost use Rattle.std.specs.Prelude.{length};
ghost use Rattle.std.specs.List.Sorted.{IsPermutation, IsSortedBy};
ghost use Rattle.gf_ops.specs.Limits.{is_form, is_near};
ghost use Rattle.gf_ops.specs.ValidHistory.{IsValid};
ghost use Rattle.gf_groups.specs.declared.group.Group.{Group};
ghost use Rattle.gf_groups.specs.Versions.{IsVersionGroup};
ghost use Rattle.gf_versions.specs.Above.{IsAbove};
ghost use Rattle.gf_versions.specs.Falling.{falls_by};
ghost use Rattle.gf_versions.specs.Ranking.{AreRankedOf, placed_version};
ghost use Rattle.gf_versions.specs.ListedVersions.{AreShown};

use crate::shaping::shape_at;
use crate::{Placed, Ranked, Version, settle};
use gf_base::OutOfMemory;
use gf_groups::Group;
use gf_ops::History;
use gf_shape::AnyShape;
use std::alloc::Global;

/// The greatest number of visible versions that a drawing takes, one for each depth of FIG.
pub const MOST_VERSIONS: usize = 1_000;

/// The visible versions with these groups, topmost first.
pub fn ranked_of(
    alloc: Global,
    history: &History,
    groups: &[Group],
) -> Result<Ranked<AnyShape>, OutOfMemory>
    requires versions { (g : Group) → Contains groups.now g → IsVersionGroup history.now.ops g }
    requires once { AllPairs (λ g k. g ≢ k) groups.now }
    ensures ranked { IfOk result (λ ranked.
        AreRankedOf history.now.ops groups.now ranked.items.items) }
    ensures few { IfOk result (λ ranked. length ranked.items.items ≤ length groups.now) }
{
    let mut items = shown(alloc, history, groups)?;
    sort(&mut items)?;
    Ok(Ranked { items })
}

/// The items, topmost first.
pub fn rank(mut items: Vec<Placed<AnyShape>>) -> Result<Ranked<AnyShape>, OutOfMemory>
    requires { AllPairs (λ i j. i.key ≢ j.key) items.items }
    ensures moved { IfOk result (λ ranked. IsPermutation items.items ranked.items.items) }
    ensures falling { IfOk result (λ ranked.
        AllPairs (λ i j. IsAbove i.key j.key) ranked.items.items) }
{
    sort(&mut items)?;
    Ok(Ranked { items })
}

/// Puts each item above those after it.
fn sort(items: &mut Vec<Placed<AnyShape>>) -> Result<(), OutOfMemory>
    ensures moved { IsPermutation items.old.items items.new.items }
    ensures sorted { OnOk result (IsSortedBy falls_by items.new.items) }
{
    items.sort_by(|a, b| b.key.cmp(&a.key))?;
    Ok(())
}

/// The shown versions with these groups, at their places.
fn shown(
    alloc: Global,
    history: &History,
    groups: &[Group],
) -> Result<Vec<Placed<AnyShape>>, OutOfMemory>
    requires { (g : Group) → Contains groups.now g → IsVersionGroup history.now.ops g }
    ensures shown { IfOk result (λ items. AreShown history.now.ops groups.now items.items) }
    ensures valid { IsValid history.now.ops }
{
    history.recall_valid();
    let mut items = Vec::new(alloc);
    for group in groups {
        let version = settle(alloc, history, group)?;
        if version.shown {
            items.push(placed(alloc, version)?)?;
        }
    }
    Ok(items)
}

/// The version at its place.
fn placed(alloc: Global, version: Version) -> Result<Placed<AnyShape>, OutOfMemory>
    requires { IsTrue (is_form version.form && is_near version.place) }
    ensures { IfOk result (λ item. item ≡ placed_version version) }
{
    Ok(Placed {
        shape: shape_at(alloc, &version.form, version.place)?,
        key: version.key,
        colour: version.colour,
    })
}
