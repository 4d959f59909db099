//! The world of replicas: sites that make changes, are offered what the others made, and step.
//!
//! - [`world_run`]: the [`World`] that new sites come to by [`Event`]s.
//! - [`each_site_of_a_world_has_a_course`], [`settled_sites_have_all_messages`],
//!   [`what_is_offered_behind_the_last_change_is_an_offer`],
//!   [`a_site_that_is_offered_a_history_has_it`], [`courses_of_the_same_operations_have_events`]:
//!   the laws.
#![tactic(auto)]

mod event;
mod laws;
mod world;

pub use event::Event;
pub use laws::{
    a_site_that_is_offered_a_history_has_it, courses_of_the_same_operations_have_events,
    each_site_of_a_world_has_a_course, settled_sites_have_all_messages,
    what_is_offered_behind_the_last_change_is_an_offer,
};
pub use world::{World, world_run};
