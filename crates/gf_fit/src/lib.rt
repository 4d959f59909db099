//! The window that fits a drawing.
//!
//! - [`fitted_window`]: the window of a frame in whose middle a drawing stands.
//! - [`one_window_fits`]: the law that there is no other.
//!
//! [`Range`] is that of `gf_shape`, [`Frame`] and [`Window`] are those of `gf_scanline`.
#![tactic(auto)]

mod bounding;
mod fitting;
mod laws;

pub use fitting::fitted_window;
pub use gf_scanline::{Frame, Window};
pub use gf_shape::Range;
pub use laws::one_window_fits;
