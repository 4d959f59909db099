//! What threads pass before each piece of their work.
//!
//! - [`Gate`]: is told which thread begins which piece, and may let it wait.
//! - [`OpenGate`]: stops nobody.
#![tactic(auto)]

mod gate;

pub use gate::{Gate, OpenGate};
