//! The version on top at a point.

ghost use Rattle.std.specs.Prelude.{◌≡◌, IfOk, find, option_map};
ghost use Rattle.gf_shape.specs.declared.any_shape.AnyShape.{AnyShape};
ghost use Rattle.gf_shape.specs.ShapeMeaning.{any_holds};
ghost use Rattle.gf_versions.specs.declared.placed.Placed.{Placed};
ghost use Rattle.gf_inspect.specs.TopVersion.{NamesTop, name_of};

use gf_base::OutOfMemory;
use gf_listing::Versions;
use gf_ops::{History, Ids, ObjectId};
use gf_shape::{AnyShape, Point, Shape};
use gf_versions::Ranked;
use gf_visible::{ranked, ranked_all};
use std::alloc::Global;

/// The name of a version: its object, and the ids of its operations, rising.
#[derive(Drop)]
pub struct VersionName {
    pub object: ObjectId,
    pub ops: Ids,
}

/// The name of the version on top at a point: visible, holding the point, and above each other such
/// version. None where no visible version holds the point, and the history means white.
pub fn top_at(
    alloc: Global,
    history: &History,
    point: Point,
) -> Result<Option<VersionName>, OutOfMemory>
    ensures { IfOk result (λ name. NamesTop history.now.ops point name) }
{
    let ranked = ranked(alloc, history)?;
    Ok(first_name(ranked, point))
}

/// The name that [`top_at`] gives, of a history with its versions. A hidden object costs a pass
/// over its operations, however many versions it has.
pub fn top_at_with(
    alloc: Global,
    versions: &Versions<'_>,
    point: Point,
) -> Result<Option<VersionName>, OutOfMemory>
    ensures { IfOk result (λ name. NamesTop versions.now point name) }
{
    let ranked = ranked_all(alloc, versions)?;
    Ok(first_name(ranked, point))
}

/// The name of the first of the ranked versions that holds the point.
fn first_name(ranked: Ranked<AnyShape>, point: Point) -> Option<VersionName>
    ensures { result ≡ option_map name_of (find (λ (i : Placed AnyShape). any_holds i.shape point)
        ranked.items.items) }
{
    for item in ranked.items {
        if item.shape.holds(point) {
            return Some(VersionName {
                object: item.key.object,
                ops: item.key.ops,
            });
        }
    }
    None
}
