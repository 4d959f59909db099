//! One site: its number, and a replica: a history with its table, and what waits.
//!
//! - [`Replica`]: receives operations of any sites, and steps.
//! - [`Site`]: a replica under a number. It makes operations of changes, too.
//! - [`Step`], [`AuthorFault`]: what a step came to, and why a change was refused.
//! - [`Cause`]: why a command to make a change, or to wait for an operation, was refused.
#![tactic(auto)]

mod cause;
mod faults;
mod replica;
mod site;

pub use cause::Cause;
pub use faults::AuthorFault;
pub use replica::{Replica, Step};
pub use site::Site;
