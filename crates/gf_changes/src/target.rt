//! What is to be shown: the figures of a drawing, with the names that they have.

use gf_base::OutOfMemory;
use gf_fig_named::{Name, Named};
use gf_figures::Drawing;
use gf_ops::Start;
use gf_shape::{Bounds, Outline, Shape};
use std::alloc::Global;

/// A figure that is to be shown, and its name, if it has one.
#[derive(Drop)]
pub struct Target {
    /// What an object of the figure begins with. The points of a polygon are seen from the first.
    pub start: Start,
    /// Whether an object can begin so, within the limits of operations.
    pub is_within: bool,
    pub depth: u16,
    pub bounds: Bounds,
    pub name: Option<Named>,
    /// The index of the figure in file order.
    pub index: usize,
}

/// The figures of a drawing from the front to the back. What they begin with and the names are
/// those of the figures in file order. A figure beyond the names has none.
pub fn targets(
    alloc: Global,
    drawing: &Drawing<Outline>,
    starts: Vec<(Start, bool)>,
    names: &[Option<Named>],
) -> Result<Vec<Target>, OutOfMemory> {
    let mut rows = Vec::with_capacity(alloc, starts.len())?;
    for (index, (start, is_within)) in starts.into_iter().enumerate() {
        if let Some(figure) = drawing.figures().get(index) {
            rows.push(Target {
                start,
                is_within,
                depth: figure.depth,
                bounds: figure.shape.bounds(),
                name: name_at(alloc, names, index)?,
                index,
            })?;
        }
    }
    rows.reverse();
    rows.sort_by_key(|row| row.depth)?;
    Ok(rows)
}

/// A copy of the name at an index, if there is one.
fn name_at(
    alloc: Global,
    names: &[Option<Named>],
    index: usize,
) -> Result<Option<Named>, OutOfMemory> {
    match names.get(index) {
        Some(Some(named)) => Ok(Some(Named {
            name: Name {
                object: named.name.object,
                telling: named.name.telling.copy(alloc)?,
            },
            depth: named.depth,
        })),
        Some(None) | None => Ok(None),
    }
}
