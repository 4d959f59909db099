//! Operations that wait for what they know, and the order in which they may be added.
//!
//! - [`Buffer`]: operations that wait until a history has what they know.
//! - [`Offered`], [`OfferFault`]: what an offer to a buffer came to.
//! - [`waits_for`]: the first operation that a waiting one lacks.
//! - [`a_last_delivery_has_the_delivered_part`], [`each_list_has_a_last_delivery`],
//!   [`the_delivered_part_of_a_valid_history_is_all_of_it`],
//!   [`what_is_ready_in_a_valid_history_is_accepted`]: the laws.
#![tactic(auto)]

mod boxed;
mod buffer;
mod by_id;
mod faults;
mod laws;
mod ready;
mod standing;
mod waiting;

pub use buffer::{Buffer, Offered};
pub use faults::OfferFault;
pub use laws::{
    a_last_delivery_has_the_delivered_part, each_list_has_a_last_delivery,
    the_delivered_part_of_a_valid_history_is_all_of_it,
    what_is_ready_in_a_valid_history_is_accepted,
};
pub use waiting::waits_for;
