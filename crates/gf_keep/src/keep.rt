//! Which versions are kept.

use gf_ops::{Ids, ObjectId};

/// Of the visible versions of an object, those that hold all of some operations.
#[derive(Drop)]
pub struct Keep {
    pub object: ObjectId,
    pub with: Ids,
}
