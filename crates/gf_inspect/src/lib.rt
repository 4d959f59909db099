//! Queries about versions: all of one object, the one on top at a point, and their texts.
//!
//! - [`versions`]: the versions of an object, hidden ones too, topmost first; [`versions_with`]:
//!   these of a history with its versions; [`lines`]: their text, in words or as JSON;
//!   [`object_lines`]: the texts of all objects, or of those with several versions.
//! - [`top_at`]: the [`VersionName`] of what a history shows at a point; [`top_at_with`]: this name
//!   of a history with its versions, which spares what is hidden; [`top_line`]: its text.
//! - [`aimed_at`]: the change that aims at that version; [`an_aim_at_the_top_is_one`]: the law.
#![tactic(auto)]

mod aiming;
mod json;
mod laws;
mod listing;
mod telling;
mod texts;
mod top;

pub use aiming::aimed_at;
pub use laws::an_aim_at_the_top_is_one;
pub use listing::{versions, versions_with};
pub use telling::{lines, object_lines, top_line};
pub use top::{VersionName, top_at, top_at_with};
