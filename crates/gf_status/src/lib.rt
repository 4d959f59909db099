//! The status of a history, which a designer asks for after taking in other people's files. It says
//! what each site has, what waits for what, where the versions of an object differ, and what is
//! hidden although somebody did not know it.
//!
//! - [`status_run`]: reads operation lines and writes the status of their history; it answers a
//!   [`State`]. [`status_of_replica`]: the same of a replica.
//! - [`object_statuses`]: an [`ObjectStatus`] for each object, with a [`Difference`] for each
//!   attribute that differs among its visible versions.
//! - [`KeptStatuses`]: the same statuses, kept while the history grows.
//! - [`a_clean_history_has_no_more_versions_than_a_drawing`]: the law of a clean status.
#![tactic(auto)]

mod counting;
mod differing;
mod hidden;
mod ids;
mod json;
mod kept;
mod laws;
mod lines;
mod objects;
mod run;
mod setters;
mod state;
mod unseen;

pub use differing::Difference;
pub use kept::KeptStatuses;
pub use laws::a_clean_history_has_no_more_versions_than_a_drawing;
pub use objects::{ObjectStatus, object_statuses};
pub use run::{status_of_replica, status_run};
pub use state::State;
