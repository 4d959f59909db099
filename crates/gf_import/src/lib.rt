//! The run of an import: from FIG text to lines of commands that create its figures.
//!
//! - [`import_run`]: reads a FIG text, and writes a command for each figure of its drawing;
//!   [`ImportError`] tells why not.
//! - [`creations`]: a creation for each figure of a drawing; [`CreationError`] tells why there are
//!   none.
//! - [`the_creations_paint_the_drawing`], [`what_is_imported_paints_the_drawing`]: the laws of the
//!   history that a site makes of the creations.
//! - [`what_can_be_imported_is_not_refused`]: the law that a success rules a refusal out.
//! - [`what_a_history_shows_can_be_imported`]: the law that an import takes all that is exported.
#![tactic(auto)]

mod creating;
mod creation_error;
mod import_error;
mod importing;
mod laws;
mod run;

pub use creating::creations;
pub use creation_error::CreationError;
pub use import_error::ImportError;
pub use laws::{
    the_creations_paint_the_drawing, what_a_history_shows_can_be_imported,
    what_can_be_imported_is_not_refused, what_is_imported_paints_the_drawing,
};
pub use run::import_run;
