//! What tells a version of an object from other operations, what an aim at operations holds, and
//! which objects there are.
//!
//! - [`telling`]: of a group, the last operation of each site against each of the others.
//! - [`aim_at`]: the aim at operations, with what they aim at themselves.
//! - [`rising`]: ids in their order, each once.
//! - [`push_lacking`]: the ids of one list that another one lacks.
//! - [`objects`]: the ids of all objects of a history.
//! - [`what_tells_a_version_is_in_no_other`]: the law.
#![tactic(auto)]

mod aiming;
mod lacking;
mod laws;
mod made;
mod names;
mod sorting;

pub use aiming::aim_at;
pub use lacking::push_lacking;
pub use laws::what_tells_a_version_is_in_no_other;
pub use made::objects;
pub use names::telling;
pub use sorting::rising;
