//! From the bytes of operation lines to a replica that has their operations.
//!
//! - [`read_replica`]: receives the operation of each line, and steps until nothing is ready.
//! - [`read_behind`]: the same behind the operations that a replica was given before.
//! - [`take_op`]: receives one operation, and steps until nothing is ready.
//! - [`line_refusal`]: the refusal of a line for its fault.
//! - [`ReadingError`], [`LineCause`]: why lines are no history.
#![tactic(auto)]

mod blocks;
mod reading;
mod reading_error;
mod taking;

pub use reading::{read_behind, read_replica};
pub use reading_error::{LineCause, ReadingError};
pub use taking::{line_refusal, take_op};
