//! FIG text with comments that name its figures (Xfig, FIG Format 3.2).
//!
//! - [`named_bytes`]: the text of a history's visible versions, each behind its [`Name`]. The names
//!   survive in programs that keep comments, and the depths leave room for new figures.
//!
//! - [`names_of`]: what each visible version of a history is called; [`Places`]: where the versions
//!   of each object stand in a list.
//!
//! - [`read_names`]: what the comments of such a text tell, also where a program has changed it:
//!   [`Names`], a list of [`Named`].
//!
//! - [`thin_polygons`]: the objects of polygons that xfig does not keep.
//!
//! The law is [`the_named_text_of_a_history_shows_it`].
#![tactic(auto)]

mod above;
mod comments;
mod figures;
mod known;
mod laws;
mod naming;
mod places;
mod polygons;
mod reading;
mod spelling;
mod text;

pub use laws::the_named_text_of_a_history_shows_it;
pub use naming::{Name, names_of};
pub use places::Places;
pub use polygons::thin_polygons;
pub use reading::{Named, Names, read_names};
pub use text::named_bytes;
