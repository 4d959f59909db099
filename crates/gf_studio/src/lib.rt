//! Whole runs over bytes. A run makes operation lines a FIG text, a picture or lines of versions,
//! or it makes a FIG text a picture.
//!
//! - [`fig_run`]: reads operation lines and writes the FIG text of their drawing. It answers how
//!   many operations wait, as [`paint_run`] does.
//! - [`named_fig_run`]: the same, with a comment before each figure that names it; [`NamedRun`]
//!   tells also of polygons that xfig does not keep.
//! - [`picture_run`]: reads operation lines or a FIG text, by its [`Format`], and writes a [`Picture`]
//!   of an [`Extent`]: a window, or one that fits a frame. [`Painted`] has the window.
//! - [`paint_run`], [`repaint_run`]: the same of operation lines, and of a FIG text, in a window.
//! - [`inspect_run`]: reads operation lines and writes what their history answers to a [`Query`],
//!   as an [`Inspection`] asks.
//! - [`draw_replica`], [`named_of_replica`]: the drawing of a replica's history; its named text.
//! - [`drawing_of_lines`], [`drawing_of_fig`]: the drawing that the bytes of a source denote; of
//!   lines it is [`DrawnLines`], with how many operations wait.
//! - [`the_same_operations_draw_alike`], [`the_same_histories_draw_alike`]: the laws that neither
//!   order nor repeats change a drawing.
//! - [`what_denotes_a_history_is_not_refused`]: the law that a success rules a refusal out.
//! - [`the_text_of_what_lines_denote_shows_it`]: the law on the FIG text of a history.
//! - [`a_text_is_repainted_as_its_history_is_painted`]: the law that ties a repainted text to its
//!   history.
//! - [`the_same_operations_fit_alike`], [`a_text_fits_as_its_history_does`]: the laws of windows that
//!   fit.
#![tactic(auto)]

mod drawings;
mod inspecting;
mod laws;
mod naming;
mod painting;
mod runs;

pub use drawings::{DrawnLines, draw_replica, drawing_of_fig, drawing_of_lines};
pub use inspecting::{Inspection, Query, inspect_run};
pub use laws::{
    a_text_fits_as_its_history_does, a_text_is_repainted_as_its_history_is_painted,
    the_same_histories_draw_alike, the_same_operations_draw_alike, the_same_operations_fit_alike,
    the_text_of_what_lines_denote_shows_it, what_denotes_a_history_is_not_refused,
};
pub use naming::{NamedRun, named_fig_run, named_of_replica};
pub use painting::{Extent, Format, Painted, Picture, picture_run};
pub use runs::{fig_run, paint_run, repaint_run};
