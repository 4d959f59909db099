//! The run over a session text: from script lines to a report and the FIG text of the common
//! history.
//!
//! - [`session_run`]: reads script lines, runs the scripts at the same time, and writes what became
//!   of the commands of each site. The FIG text stands behind this. [`SessionRunError`] tells why
//!   not.
//! - [`the_sites_of_a_session_draw_alike`]: each site's history is drawn, and the drawing is one.
#![tactic(auto)]

mod laws;
mod playing;
mod reports;
mod run;
mod scripts;
mod session_run_error;

pub use laws::the_sites_of_a_session_draw_alike;
pub use run::session_run;
pub use session_run_error::SessionRunError;
