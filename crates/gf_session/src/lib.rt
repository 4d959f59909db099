//! Sessions: the scripts of two to eight sites, each run by a thread of its own. At the end all
//! sites have one history.
//!
//! - [`run_session`], [`Done`], [`SessionError`]: the session, what it gives for each site, and why
//!   it gives nothing.
//! - [`Script`], [`Report`], [`Refused`], [`Cause`]: what a site is to do, and what became of it.
//! - [`site_worker`], [`Ends`], [`WorkerEnd`]: the run of one site, what it begins with, and what
//!   it gives back. The names of both come from `gf_worker`.
//! - [`joined_workers_have_one_history`]: the law behind it, for any number of sites.
#![tactic(auto)]

mod laws;
mod session;
mod starting;

pub use gf_site::Cause;
pub use gf_worker::{Ends, Refused, Report, Script, WorkerEnd, site_worker};
pub use laws::joined_workers_have_one_history;
pub use session::{Done, SessionError, run_session};
