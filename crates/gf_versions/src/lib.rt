//! The versions of the objects of a history, and the colour that a history means at a point.
//!
//! - [`Version`] with its [`VersionKey`]: what an object looks like in one group of compatible
//!   operations.
//! - [`Ranked`], a list of [`Placed`]: the visible versions, topmost first. A drawing takes at most
//!   [`MOST_VERSIONS`].
//! - [`sets`]: whether an operation gives an attribute a value.
//! - [`settle`]: makes the version of a group, [`settle_all`] those of some groups; [`ranked_of`]:
//!   ranks the visible ones of some groups, [`rank`] some that are made.
//! - [`a_version_settles_each_attribute_once`], [`versions_are_in_a_total_order`],
//!   [`one_colour_at_a_point`], [`the_first_that_holds_is_on_top`]: the laws.
//! - [`the_same_operations_rank_alike`]: the law that the order of a history says nothing.
#![tactic(auto)]

mod giving;
mod key;
mod laws;
mod placed;
mod ranking;
mod settling;
mod shaping;

pub use giving::sets;
pub use key::{Version, VersionKey};
pub use laws::{
    a_version_settles_each_attribute_once, one_colour_at_a_point, the_first_that_holds_is_on_top,
    the_same_operations_rank_alike, versions_are_in_a_total_order,
};
pub use placed::{Placed, Ranked};
pub use ranking::{MOST_VERSIONS, rank, ranked_of};
pub use settling::{settle, settle_all};
