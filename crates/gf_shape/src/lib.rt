//! Shapes over grid points: what each holds, its bounds, its moves and its outline.
//!
//! - [`Shape`]: what every shape can do, and the laws that it keeps.
//! - [`Rect`], [`Circle`], [`Ellipse`], [`Polygon`] and [`AnyShape`], which is one of these: what a
//!   designer draws.
//! - [`Outline`], which is a [`Chain`], a [`Disc`] or an [`Oval`]: what a FIG file draws.
//! - [`Bounds`]: the points from a low corner to a high one.
//! - [`Row`]: the spans of a shape at one height, with memory for the next ones; [`meet`]: where an
//!   edge meets it.
//! - [`Range`], [`PolygonError`]: why a call was refused.
//!
//! Points and colours are those of `gf_plane`, spans those of `gf_spans`.
#![tactic(auto)]

mod any_shape;
mod around;
mod bounds;
mod chain;
mod circle;
mod disc;
mod edges;
mod ellipse;
mod outline;
mod oval;
mod passing;
mod points;
mod polygon;
mod products;
mod rect;
mod refusals;
mod rows;
mod shape;

pub use any_shape::AnyShape;
pub use bounds::Bounds;
pub use chain::Chain;
pub use circle::Circle;
pub use disc::Disc;
pub use ellipse::Ellipse;
pub use gf_plane::{Point, REACH, Rgb, WHITE};
pub use gf_spans::Span;
pub use outline::Outline;
pub use oval::Oval;
pub use passing::meet;
pub use polygon::Polygon;
pub use rect::Rect;
pub use refusals::{PolygonError, Range};
pub use rows::Row;
pub use shape::Shape;
