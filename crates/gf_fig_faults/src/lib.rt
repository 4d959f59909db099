//! What is wrong with a FIG text: up to 64 of its faults at once, each with the object that has it,
//! and what to do.
//!
//! - [`drawing_faults`]: the faults of a text, in the order of their lines.
//! - [`DrawingFaults`], [`DrawingFault`]: the faults, and one of them, as they are told.
//! - [`located_at`], [`Located`]: the object that begins on a line, by its kind and place.
#![tactic(auto)]

mod commenting;
mod faults;
mod fields;
mod kinds;
mod problems;
mod searching;

pub use faults::{DrawingFault, DrawingFaults};
pub use kinds::{Kind, Located, located_at};
pub use problems::{Explanation, Problem};
pub use searching::drawing_faults;
