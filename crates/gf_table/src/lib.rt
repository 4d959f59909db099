//! The positions of the operations on each object of a history, one operation at a time. How
//! versions are found of them is no matter here.
//!
//! - [`GroupTable`]: the positions by object, for those who keep a history beside it.
//! - [`IndexedHistory`]: a history with its table, seen as the list of its operations.
//! - [`Positions`], [`push_position`], [`positions_at`]: how the positions of another list are kept
//!   by object.
#![tactic(auto)]

mod indexed;
mod positions;
mod table;

pub use indexed::IndexedHistory;
pub use positions::Positions;
pub use table::{GroupTable, positions_at, push_position};
