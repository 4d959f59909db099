//! The command line of figgroup, over any source and sinks.
//!
//! - [`command`]: runs what the words ask for, and answers the status; [`refuse_words`]: the status
//!   of words that could not be read.
//! - [`parse`]: reads the words. [`Asked`] has the [`Run`] that they ask for, or a [`Mistake`] in
//!   its options; clap's error has the text of a help, a version or another mistake.
//! - [`Canvas`]: which [`Extent`] of the plane a run paints; [`Workers`]: how many threads read and
//!   paint; [`Editor`]: which site makes operations. [`Extent`] is that of `gf_studio`.
//! - [`what_an_edit_writes_is_drawn_with_what_it_read`]: the law that ties `fig` and `paint` to
//!   `edit`.
#![tactic(auto)]

mod answering;
mod asking;
mod chosen;
mod describing;
mod laws;
mod painting;
mod querying;
mod refusal;
mod runs;
mod since;
mod thin;
mod waiting;

pub use answering::{command, refuse_words};
pub use asking::parse;
pub use gf_studio::Extent;
pub use laws::what_an_edit_writes_is_drawn_with_what_it_read;
pub use runs::{Asked, Canvas, Editor, Mistake, QueryFault, Run, Workers};
