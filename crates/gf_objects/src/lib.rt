//! The object that a figure becomes: its form, its place and its colour, and which limit it breaks.
//!
//! - [`start_of`]: what the object of a figure begins with; [`form_of`], [`place_of`] and
//!   [`colour_of`] give its parts.
//! - [`start_fault`]: the first limit of operations that it breaks, a [`FigureFault`];
//!   [`object_of`]: the number by which the figure is told.
#![tactic(auto)]

mod boxes;
mod figure_fault;
mod limits;
mod making;
mod places;

pub use figure_fault::FigureFault;
pub use limits::start_fault;
pub use making::{colour_of, form_of, object_of, place_of, start_of};
