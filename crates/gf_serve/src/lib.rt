//! A service: it stays, keeps the operations that it was given, and answers requests, each as the
//! command of its name answers all operation lines that were given before.
//!
//! - [`Service`]: what a service keeps; [`Service::answer`] is one request with its whole meaning.
//! - [`Request`], [`Reply`]: what is asked, and what is answered. [`Arrival`] tells how many
//!   operations came, [`Refusal`] why a request was refused.
//! - [`Dialogue::turn`]: reads one request from a source, and writes its answer. [`serve_run`] takes
//!   turns until the requests end.
//! - [`ServeError`]: why a service ended before that.
//! - [`a_service_answers_as_the_commands`]: the law that ties its answers to the commands.
#![tactic(auto)]

mod answering;
mod asking;
mod dialogue;
mod inbox;
mod kept;
mod laws;
mod reply;
mod request;
mod run;
mod serve_error;
mod service;
mod two_replicas;
mod writing;

pub use dialogue::{Dialogue, Turn};
pub use laws::a_service_answers_as_the_commands;
pub use reply::{Arrival, Refusal, Reply};
pub use request::{Request, TakeText};
pub use run::serve_run;
pub use serve_error::ServeError;
pub use service::Service;
