//! The lines of a script, and those that keep versions.

use gf_ops::{Change, Ids, ObjectId, OpId};

/// What a script asks of a site.
#[derive(Drop)]
pub enum Command {
    /// To make an operation with this change.
    Author(Change),
    /// To wait until the site has this operation.
    Await(OpId),
}

/// A command, and the site that it is for, 1 to 8.
#[derive(Drop)]
pub struct ScriptLine {
    pub site: u8,
    pub command: Command,
}

/// A line by which a site keeps those visible versions of an object that hold all of the operations
/// under these ids.
#[derive(Drop)]
pub struct KeepLine {
    pub site: u8,
    pub object: ObjectId,
    pub with: Ids,
}
