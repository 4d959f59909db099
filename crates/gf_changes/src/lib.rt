//! Which changes make what a history shows into a drawing that was changed elsewhere. The changes
//! are a proposal: who makes them checks what comes of them.
//!
//! - [`Target`], [`targets`]: the figures that are to be shown, from the front to the back, each
//!   with its name, if it has one.
//! - [`matched`]: which of the versions that are shown each figure is, as a [`Matching`];
//!   [`first_beyond`]: the first figure that comes to be something beyond the limits of operations.
//! - [`objects_not_shown`]: the hidden objects that figures name; [`showing_again`]: the change
//!   that shows a hidden version which looks like the figure; [`has_change`]: whether the change is
//!   there already.
//! - [`alterations`]: the changes of versions to what their figures are, and those that hide
//!   others.
//! - [`arranged`]: the changes of layers, and the new figures behind these.
#![tactic(auto)]

mod aiming;
mod altering;
mod arranging;
mod comparing;
mod finding;
mod matching;
mod ordering;
mod ranks;
mod restoring;
mod settled;
mod target;

pub use altering::alterations;
pub use arranging::arranged;
pub use matching::{Matching, first_beyond, matched};
pub use restoring::{has_change, objects_not_shown, showing_again};
pub use target::{Target, targets};
