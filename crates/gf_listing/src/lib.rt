//! The versions of the objects of a history, listed or counted when somebody asks.
//!
//! - [`Versions`]: a history with the table of its positions, borrowed, seen as the list of its
//!   operations. It lists or counts the versions of an object. Those who ask hold this, and no
//!   table.
//! - [`groups_of`]: the versions of an object of a history alone.
//! - [`ListGroups`]: the same of a table, beside the history that it stands for.
#![tactic(auto)]

mod groups;
mod versions;

pub use groups::{ListGroups, groups_of};
pub use versions::{MOST_COUNTED, Versions};
