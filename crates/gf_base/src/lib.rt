//! What every crate above shares: want of memory, numbers in digits, and lemmas on lists.
//!
//! - [`OutOfMemory`]: a growth of memory was refused.
//! - [`push_number`]: appends a whole number in decimal digits.
#![tactic(auto)]

mod memory;
mod numbers;

pub use memory::OutOfMemory;
pub use numbers::push_number;
