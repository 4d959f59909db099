//! The text of a FIG drawing as tokens and fields (Xfig, FIG Format 3.2).
//!
//! - [`Tokens`]: the tokens of a text's objects, from which fields are read one after another.
//! - [`whole`]: the number that a token stands for.
//! - [`token_line`], [`line_count`]: the line on which a token stands, and how many a text has.
//! - [`cut_line`], [`cut_word`], [`is_comment`]: the lines of a text and the words of a line, cut
//!   off one by one.
//! - [`FigFault`]: why a FIG text reads as no drawing, the faults of objects among them.
#![tactic(auto)]

mod faults;
mod forms;
mod layout;
mod numbering;
mod tokens;

pub use faults::FigFault;
pub use forms::whole;
pub use layout::{cut_line, cut_word, is_comment};
pub use numbering::{line_count, token_line};
pub use tokens::Tokens;
