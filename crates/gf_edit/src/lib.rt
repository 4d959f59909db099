//! The run of an edit: from operation lines and commands of one site to the lines of new
//! operations.
//!
//! - [`edit_run`]: reads operation lines and command lines, and writes the new operations.
//! - [`read_entry`], [`Entry`]: what a line denotes, where a site edits or not, or its first fault.
//! - [`EditCommand`]: what a line tells the site that edits.
//! - [`check_waiting`]: whether an operation that waits blocks a site.
//! - [`Made`]: the first and the last of the new operations.
//! - [`push_line`]: appends the line of an operation.
//! - [`EditError`]: why an edit is refused.
//! - [`what_an_edit_writes_joins_what_it_read`]: the law of the operations that an edit read and
//!   wrote.
#![tactic(auto)]

mod edit_command;
mod edit_error;
mod editing;
mod entries;
mod laws;
mod made;
mod making;
mod numbered;
mod reading;
mod run;
mod waiting;

pub use edit_command::EditCommand;
pub use edit_error::EditError;
pub use entries::{Entry, read_entry};
pub use laws::what_an_edit_writes_joins_what_it_read;
pub use made::Made;
pub use making::push_line;
pub use numbered::Numbered;
pub use run::edit_run;
pub use waiting::check_waiting;
