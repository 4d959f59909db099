//! What is wrong with operation lines, and with commands of a site that edits: each line and each
//! operation that a run over them would refuse, explained.
//!
//! - [`check_run`]: reads lines, writes a line for each fault, and answers a [`Verdict`].
//! - [`faults_of`]: a line for each fault of a text, in the order in which they are met.
#![tactic(auto)]

mod arrived;
mod checks;
mod faults;
mod forms;
mod json_reasons;
mod keys;
mod limits;
mod line_reasons;
mod lines;
mod operation_reasons;
mod plain;
mod reasons;
mod telling;

pub use checks::{Verdict, check_run};
pub use lines::faults_of;
