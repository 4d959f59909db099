//! Drawings from FIG text (Xfig, FIG Format 3.2).
//!
//! - [`read_fig`]: the drawing that a text reads as, by the FIG grammar of the profile that this
//!   project reads: closed chains, circles and ellipses with level axes, filled, without
//!   outline.
//! - [`FigError`]: the first fault of a text that reads as none, a [`FigFault`], and its object.
//! - [`object_line`], [`fault_line`]: the line on which an object begins, and the line at which a
//!   fault is reported.
//! - [`every_text_reads_as_one_drawing_or_fails_once`], [`what_a_text_reads_as_is_lawful`]: the
//!   laws of the grammar.
#![tactic(auto)]

mod faults;
mod laws;
mod lines;
mod objects;
mod outlines;
mod reading;
mod styles;

pub use faults::FigError;
pub use gf_fig_tokens::FigFault;
pub use laws::{every_text_reads_as_one_drawing_or_fails_once, what_a_text_reads_as_is_lawful};
pub use lines::{fault_line, object_line};
pub use reading::read_fig;
