//! The worker of a site: runs the site's script, sends what the site makes to its peers, and takes
//! what they send.
//!
//! - [`site_worker`], [`Ends`], [`WorkerEnd`]: the worker, what it begins with, and what it gives
//!   back.
//! - [`stop_worker`]: what is done for a site whose worker does not run.
//! - [`Peer`]: another site, with the seats of the two links between them.
//! - [`Script`], [`Report`], [`Refused`]: what a site is to do, and what became of it.
#![tactic(auto)]

mod judging;
mod peer;
mod playing;
mod report;
mod script;
mod sending;
mod waiting;
mod work;
mod worker;

pub use peer::Peer;
pub use report::{Refused, Report};
pub use script::Script;
pub use worker::{Ends, WorkerEnd, site_worker, stop_worker};
