//! Layers.

use crate::Brush;
use gf_shape::{Bounds, Chain};

/// A shape in its colour, with its bounds. Of a polygon it has the chain of points.
#[derive(Drop)]
pub struct Layer<'a, S> {
    pub shape: &'a S,
    pub brush: Brush,
    pub bounds: Bounds,
    pub chain: Option<Chain>,
}
