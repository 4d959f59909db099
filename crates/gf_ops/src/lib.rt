//! Operations on the objects of a drawing, and the history that they make.
//!
//! - [`Op`] with its [`OpId`], its [`Clock`] and its [`Change`]: one edit by one designer.
//! - [`Start`] with its [`Form`] and [`Points`], [`ObjectId`]: what a new object begins with, and
//!   its name.
//! - [`Value`], [`Attr`]: what a change of an object sets.
//! - [`same_op`], [`same_form`]: whether two operations, or two forms, agree in everything.
//! - [`before`], [`concurrent`]: the causal order of operations.
//! - [`conflicts`]: whether two operations cannot stand in one version; [`direct_conflict`]:
//!   whether they cannot by themselves, whatever their aims, which are [`Ids`]. [`id_set`] makes a
//!   set of ids.
//! - [`History`]: the operations that a site has, always a valid history.
//! - [`is_near`], [`are_near`], [`is_size`]: limits of places, points and sizes.
//! - [`OpFault`], [`AddFault`]: why an operation was not added.
//! - [`push_id`], [`push_spaced_ids`]: the text of ids.
//! - [`before_is_a_strict_order`], [`conflict_is_symmetric_and_irreflexive`]: the laws.
#![tactic(auto)]

mod aim_walk;
mod aims;
mod change;
mod conflict;
mod copying;
mod faults;
mod history;
mod id_text;
mod ids;
mod laws;
mod limits;
mod op;
mod order;
mod points;
mod same;

pub use change::{Attr, Change, Form, Start, Value};
pub use conflict::{conflicts, direct_conflict};
pub use faults::{AddFault, OpFault};
pub use history::History;
pub use id_text::{push_id, push_spaced_ids};
pub use ids::{Ids, id_set};
pub use laws::{
    a_version_holds_the_aims_of_its_members, before_is_a_strict_order,
    conflict_is_symmetric_and_irreflexive, conflicts_come_from_aims,
    direct_conflict_is_symmetric_and_irreflexive, without_aims_conflicts_are_direct,
};
pub use limits::{are_near, is_near, is_size};
pub use op::{Clock, ObjectId, Op, OpId};
pub use order::{before, concurrent};
pub use points::Points;
pub use same::{same_form, same_op};
