//! What a site takes from a drawing that was changed elsewhere: new operations behind a base, and
//! the check that the history with them shows the drawing.
//!
//! - [`reach`]: how far the operations reach that a drawing knew or a site made.
//! - [`base_site`]: a site that has what a drawing knew, and all of its own; [`is_whole_base`]:
//!   whether that is all of a history.
//! - [`make_all`]: makes changes behind the base of a site.
//! - [`looks_like`]: whether versions look like a drawing, figure by figure;
//!   [`version_looks_like`]: whether one version looks like one figure.
//! - [`shows`]: whether versions show a drawing, in an order that paints the same.
//! - [`what_shows_a_drawing_paints_it`], [`a_history_shows_its_own_drawing`]: the laws of the
//!   check.
//! - [`what_a_base_knows_is_a_history`], [`what_is_taken_joins_what_was_read`]: the laws of bases.
#![tactic(auto)]

mod bases;
mod laws;
mod looks;
mod matching;
mod swapping;
mod taking;

pub use bases::{base_site, is_whole_base, reach};
pub use laws::{
    a_history_shows_its_own_drawing, what_a_base_knows_is_a_history,
    what_is_taken_joins_what_was_read, what_shows_a_drawing_paints_it,
};
pub use taking::{looks_like, make_all, shows, version_looks_like};
