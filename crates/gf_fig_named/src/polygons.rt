//! Polygons that xfig does not keep.

ghost use Rattle.std.specs.Prelude.{◌≡◌, IfOk, count_by, zip};
ghost use Rattle.gf_fig_named.specs.ThinPolygons.{is_thin, leads_on, thin_polygons};

use gf_base::OutOfMemory;
use gf_ops::ObjectId;
use gf_shape::{AnyShape, Outline, Point, Shape};
use gf_versions::Placed;
use std::alloc::Global;

/// The objects of the versions that xfig does not keep, one for each such version, in their order.
/// xfig drops each point of a polygon that equals the one before it, and three have to be left.
pub fn thin_polygons(
    alloc: Global,
    items: &[Placed<AnyShape>],
) -> Result<Vec<ObjectId>, OutOfMemory>
    ensures { IfOk result (λ objects. objects.items ≡ thin_polygons items.now) }
{
    let mut objects = Vec::new(alloc);
    for item in items {
        let outline = item.shape.outline(alloc)?;
        if is_thin(&outline) {
            objects.push(item.key.object)?;
        }
    }
    Ok(objects)
}

/// Whether the outline is a chain of which fewer than three edges lead to another point.
fn is_thin(outline: &Outline) -> bool
    ensures { result ≡ is_thin outline.now }
{
    match outline {
        Outline::Chain(chain) => {
            let points = chain.points();
            steps(points, &points[1..]) < 3
        }
        Outline::Disc(_) | Outline::Oval(_) => false,
    }
}

/// How many of the edges between these points lead to another point.
fn steps(from: &[Point], to: &[Point]) -> usize
    ensures { result ≡ count_by leads_on (zip from.now to.now) }
{
    from.iter()
        .zip(to)
        .filter(|(a, b)| leads_on(**a, **b))
        .count()
}

/// Whether an edge leads to another point.
fn leads_on(from: Point, to: Point) -> bool
    ensures { result ≡ leads_on (from, to) }
{
    from != to
}
