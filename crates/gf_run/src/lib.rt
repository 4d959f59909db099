//! What all runs over bytes share: how they read their input, why they are refused, and what they
//! leave of source and sink.
//!
//! - [`run`]: a run by the function that makes an [`Answer`] of its bytes, a text and a value.
//! - [`input`]: all bytes of a source, with which a run begins.
//! - [`StudioError`]: why a run was refused; [`RunError`]: an error that may be one of these.
//!
//! Definitions for the contracts of runs stand in `specs/`: `RunAnswers` says what a run does to
//! its source and sink by its answer, `RefusedRuns` what an error says of the bytes that were read,
//! and `Answers` what the function of a run makes of them.
#![tactic(auto)]

mod answering;
mod reading;
mod studio_error;

pub use answering::{Answer, RunError, run};
pub use reading::input;
pub use studio_error::StudioError;
