//! Drawings: figures with colours and depths, and the colour that they leave at a point.
//!
//! - [`Figure`], [`ColourTable`], [`Drawing`]: what a FIG file holds, as far as this project writes
//!   it.
//! - [`outlines_paint_as_their_shapes`] ties a drawing to what FIG draws.
#![tactic(auto)]

mod drawing;
mod figure;
mod laws;
mod table;

pub use drawing::Drawing;
pub use figure::Figure;
pub use laws::outlines_paint_as_their_shapes;
pub use table::ColourTable;
