//! The largest compatible sets of numbers, as one number comes after the other. No two numbers of
//! such a set conflict, and each number outside of it conflicts with one of its numbers.
//!
//! The crate knows numbers alone. Its caller gives rows: for each number those that it conflicts
//! with. So the rule is proved without what the numbers stand for.
//!
//! The rule ([`meet`]) says what the next number makes of the sets. Its rivals are the earlier
//! numbers that it conflicts with:
//!
//! - A set without a rival takes the number up.
//! - A set with a rival stays. Its cut, the set with the number in place of the rivals, is a new
//!   set where it is largest.
//! - Several sets may have one cut. Their parent alone gives it.
//! - The parent begins as the cut without the number. From the lowest on, each earlier number is
//!   added that conflicts with none so far.
//!
//! An example: the sets are {0} and {1}, and 2 conflicts with both numbers. Both sets stay, and
//! both have the cut {2}. Its parent is {0}, as 0 is added first and keeps 1 out.
//!
//! A set alone tells whether it is a parent, so no two sets are compared. Each new set is made once
//! ([`each_set_has_one_parent`]).
//!
//! Numbers with the same rivals are a class, and stand in the same sets. So sets of classes are
//! found, and each is spread to the members of its classes
//! ([`the_sets_of_classes_are_the_sets_of_their_members`]).
//!
//! The crate gives three things:
//!
//! - [`Numbers`]: a set of numbers, kept as [`Run`]s, so many numbers in a row take little memory.
//! - [`meet`]: the rule, on a list of sets in place.
//! - [`Classes`]: numbers in classes, and all their largest sets, listed or counted.
#![tactic(auto)]

mod classes;
mod cutting;
mod laws;
mod listing;
mod numbers;
mod run;

pub use classes::Classes;
pub use cutting::meet;
pub use laws::{each_set_has_one_parent, the_sets_of_classes_are_the_sets_of_their_members};
pub use numbers::Numbers;
pub use run::Run;
