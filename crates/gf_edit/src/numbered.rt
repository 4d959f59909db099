//! Commands with the numbers of their lines.

use crate::EditCommand;

/// A command, with the number of its line.
#[derive(Drop)]
pub struct Numbered {
    pub line: u64,
    pub command: EditCommand,
}
