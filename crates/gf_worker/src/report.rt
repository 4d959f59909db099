//! What a site's commands came to.

use gf_ops::OpId;
use gf_site::Cause;

/// A refused command, by its number from 1.
#[derive(Clone, Copy, Debug, PartialEq, Eq)]
pub struct Refused {
    pub command: u32,
    pub cause: Cause,
}

/// The ids of the operations that a site made, and its refused commands, both in order.
#[derive(Drop)]
pub struct Report {
    pub accepted: Vec<OpId>,
    pub refused: Vec<Refused>,
}
