//! Scan lines: what a drawing shows in the rows of a window, painted from the front to the back.
//!
//! - [`Frame`]: how many columns and rows a picture has.
//! - [`Window`]: which points a picture shows, and which of its columns a span of a row covers.
//! - [`Band`]: some rows of a window.
//! - [`Layers`]: the layers of a drawing; [`Part`]: what a band has of them.
//! - [`Edge`], [`Edges`]: the edges of a chain between two heights; [`EdgeRow`]: a row that edges
//!   tell, with memory for the next ones.
//! - [`Strip`]: some columns of a row, and which of them are still free; [`Columns`]: the columns
//!   from one to before another; [`Brush`]: a colour, ready to be painted.
//! - [`Stroke`]: columns in one colour, as [`fill`] makes them bytes.
#![tactic(auto)]

mod band;
mod brush;
mod columns;
mod covered;
mod edge;
mod edge_row;
mod edges;
mod frame;
mod free_columns;
mod layer;
mod layers;
mod part;
mod piece;
mod row;
mod segment;
mod strip;
mod stroke;
mod window;
mod word;
mod workspace;

pub use band::Band;
pub use brush::Brush;
pub use columns::Columns;
pub use edge::Edge;
pub use edge_row::EdgeRow;
pub use edges::Edges;
pub use frame::Frame;
pub use layer::Layer;
pub use layers::Layers;
pub use part::Part;
pub use strip::Strip;
pub use stroke::{Stroke, fill};
pub use window::Window;
pub use workspace::Workspace;
