//! One way from a site to another: a queue of messages with a seat at each end. What was sent is
//! what was taken and then what the queue holds.
//!
//! - [`Link`], [`SendSeat`], [`TakeSeat`]: the queue and the rights to send and to take.
//! - [`links`]: as many links as are asked for.
//! - [`Message`]: an operation, or one of the two ends.
//! - [`settle`], [`Settled`]: the comparison of both seats, once nobody sends or takes any more.
#![tactic(auto)]

mod link;
mod message;
mod rule;
mod seats;

pub use link::{Link, MOST_MESSAGES, Settled, links, settle};
pub use message::Message;
pub use seats::{SendSeat, TakeSeat};
