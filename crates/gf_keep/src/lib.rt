//! Keeping versions of an object: the others are hidden, whatever their number.
//!
//! - [`Keep`]: the object, and what a version has to hold.
//! - [`keeping`]: the changes that keep such versions.
//! - [`KeepFault`]: why there are none.
//! - [`keeping_leaves_what_is_kept`]: the law.
#![tactic(auto)]

mod aiming;
mod faults;
mod keep;
mod keeping_changes;
mod laws;
mod visible;

pub use faults::KeepFault;
pub use keep::Keep;
pub use keeping_changes::keeping;
pub use laws::keeping_leaves_what_is_kept;
