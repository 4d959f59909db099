//! What versions look like, and where they are settled.

ghost use Rattle.gf_versions.specs.Ranking.{AreRanked};

use gf_base::OutOfMemory;
use gf_groups::Group;
use gf_objects::{form_of, place_of};
use gf_ops::{History, Start};
use gf_shape::{AnyShape, Point, Shape};
use gf_versions::{Placed, settle};
use std::alloc::Global;

/// What an object begins with that looks like a version. The points of a polygon are seen from the
/// first one, wherever the version is settled.
pub(crate) fn start_like(alloc: Global, item: &Placed<AnyShape>) -> Result<Start, OutOfMemory> {
    let outline = item.shape.outline(alloc)?;
    Ok(Start {
        form: form_of(alloc, &outline)?,
        place: place_of(&outline),
        colour: item.colour,
        layer: item.key.layer,
        shown: true,
    })
}

/// The settled place of the version at an index, if there is one. The call reads all operations of
/// the version.
pub(crate) fn settled_place(
    alloc: Global,
    history: &History,
    versions: &[Placed<AnyShape>],
    index: usize,
) -> Result<Option<Point>, OutOfMemory>
    requires { AreRanked history.now.ops versions.now }
{
    let Some(item) = versions.get(index) else {
        return Ok(None);
    };
    let group = Group {
        object: item.key.object,
        ops: item.key.ops.copy(alloc)?,
    };
    let version = settle(alloc, history, &group)?;
    Ok(Some(version.place))
}
