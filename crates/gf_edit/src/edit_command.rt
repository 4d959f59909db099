//! What a site is told by the lines of an edited text.

use gf_keep::Keep;
use gf_ops::{Change, OpId};

/// What a line tells the site that edits.
#[derive(Drop)]
pub enum EditCommand {
    /// To make an operation with this change.
    Author(Change),
    /// To look for this operation.
    Await(OpId),
    /// To keep versions of an object, and to hide its others.
    Keep(Keep),
}
