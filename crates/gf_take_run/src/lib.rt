//! The run of a take: from operation lines and a FIG text that was changed elsewhere to the lines
//! of one site's new operations, which show what the text shows.
//!
//! - [`take_run`]: reads both, and writes the new operations, as a [`TakeRequest`] asks.
//! - [`take_behind`]: the same behind the operations of a replica.
//! - [`Taken`]: what is told of them.
//! - [`TakeRunError`]: why nothing is taken; [`BrokenLimit`]: the figure that no operation can
//!   make.
//! - [`what_a_take_writes_joins_what_it_read`]: the law of what a take read and wrote.
#![tactic(auto)]

mod behind;
mod broken_limit;
mod counting;
mod drawing_error;
mod knowing;
mod laws;
mod leaving;
mod making;
mod parting;
mod planning;
mod reading;
mod request;
mod run;
mod showing;
mod take_run_error;
mod taken;
mod taking;

pub use broken_limit::BrokenLimit;
pub use laws::what_a_take_writes_joins_what_it_read;
pub use request::TakeRequest;
pub use run::take_run;
pub use take_run_error::TakeRunError;
pub use taken::Taken;
pub use taking::{TakenDrawing, take_behind};
