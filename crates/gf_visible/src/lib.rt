//! The visible versions of a history, listed within a bound. An operation that hides its object is
//! covered by one that shows it and comes after. A version is visible where all that hides in it is
//! covered.
//!
//! Versions are found as sets of classes. A set is dropped when a class that hides is neither
//! covered in it nor in conflict with one of it. Each other set leads to a visible version, so a
//! call stops beyond its bound. Without aims all classes that show are one first set. With some
//! aims a search over the classes that decide finds the first sets, without a promise of time.
//!
//! - [`visible_groups`]: the groups of the visible versions of one object.
//! - [`ranked_within`]: the ranked list of the visible versions of a history; [`ranked_all`]: the
//!   same with no bound; [`ranked_with`]: the same from a history and a table; [`ranked`]: from a
//!   history alone.
//! - [`showing_within`]: the search. A [`Showing`] tells what classes do to each other. Each class
//!   is chosen or left out, and a partial choice is dropped as soon as it can't hold.
//! - [`the_choices_are_the_largest_sets_that_show`]: the law of the search.
#![tactic(auto)]

mod growing;
mod laws;
mod listing;
mod objects;
mod ranking;
mod says;
mod searching;
mod setters;
mod step;
mod timeline;

pub use laws::the_choices_are_the_largest_sets_that_show;
pub use objects::visible_groups;
pub use ranking::{ranked, ranked_all, ranked_with, ranked_within};
pub use setters::{Showing, showing_within};
