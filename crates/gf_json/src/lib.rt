//! Operations and commands as lines of JSON.
//!
//! - [`read_op`]: the operation that a line denotes, or its first fault.
//! - [`read_script`], [`ScriptLine`], [`Command`]: the command that a line of a script denotes, or
//!   its first fault.
//! - [`read_keep`], [`KeepLine`]: what a line that keeps versions denotes, or its first fault.
//! - [`has_count`], [`says`]: how many keys a line has, and whether a word stands at one.
//! - [`op_line`]: the line of an operation.
//! - [`script_line`]: the line of a command.
//! - [`LineError`]: why a line is no operation and no command.
//! - [`Notation`]: whether lines about a history are words or JSON; [`push_line`]: a line of JSON;
//!   [`name_data`], [`ids_data`], [`point_data`], [`colour_data`], [`put_form`]: its parts, as an
//!   operation's line has them.
#![tactic(auto)]

mod line_error;
mod notation;
mod reading;
mod scripts;
mod writing;

pub use line_error::LineError;
pub use notation::Notation;
pub use reading::{has_count, read_keep, read_op, read_script, says};
pub use scripts::{Command, KeepLine, ScriptLine};
pub use writing::{
    colour_data, ids_data, name_data, op_line, point_data, push_line, put_form, script_line,
};
