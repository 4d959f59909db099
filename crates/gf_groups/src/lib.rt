//! The versions of objects as groups of operations: largest sets of operations on one object, no
//! two of which conflict.
//!
//! - [`Groups`]: the versions of an object, a list of [`Group`]. [`GroupFault`]: why there is no
//!   such list. [`is_made`]: whether the history has the object.
//! - [`each_operation_stands_in_a_version`], [`the_versions_are_a_list_that_computes`]: the laws.
//!
//! For those who find versions by positions:
//!
//! - [`groups_from`]: the groups of an object, from the largest sets of positions without a
//!   conflict. [`add_groups`] adds such groups to others.
//! - [`rising_ids`]: the ids of the operations at some positions. [`sort_groups`] puts groups in
//!   the order of their ids.
#![tactic(auto)]

mod faults;
mod group;
mod groups;
mod laws;
mod listing;

pub use faults::GroupFault;
pub use group::{Group, Groups};
pub use groups::{groups_from, is_made, sort_groups};
pub use laws::{each_operation_stands_in_a_version, the_versions_are_a_list_that_computes};
pub use listing::{add_groups, rising_ids};
