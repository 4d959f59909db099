//! The operations on an object in classes: the members of a class conflict with the same
//! operations.
//!
//! Setters are sorted by attribute, site and number. What one of them conflicts with directly is at
//! most a range for each other site, less the setters of its own value. Setters with the same
//! direct rivals are a direct class. The operations of a class hide at one site, or none of them
//! hides.
//!
//! An operation brings its own direct class, and those of its aim. Where it brings more than its
//! own class, or none, it stands in a joint class, behind the direct ones.
//!
//! - [`classes_of`]: the classes of the operations on an object, by their positions in the history.
//! - [`shown_by`]: whether a change shows its object, if it says that.
#![tactic(auto)]

mod class_rows;
mod classes;
mod direct;
mod fingerprint;
mod hiding;
mod joints;
mod kinds;
mod own;
mod ranges;
mod rival_ranks;
mod rivals;
mod same_values;
mod setters;

pub use classes::classes_of;
pub use hiding::shown_by;
