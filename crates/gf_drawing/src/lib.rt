//! The drawing of a history: one figure for each visible version.
//!
//! - [`compile`]: the drawing of at most [`MOST_VERSIONS`](gf_versions::MOST_VERSIONS) ranked
//!   versions, refused as [`CompileFault`] tells.
//! - [`the_canonical_drawing_paints_the_history`] ties this drawing to its history.
#![tactic(auto)]

mod compiling;
mod laws;

pub use compiling::{CompileFault, compile};
pub use laws::the_canonical_drawing_paints_the_history;
