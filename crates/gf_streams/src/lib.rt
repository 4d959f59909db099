//! Streams of bytes: where bytes go and where they come from, as traits that tell each failure, and
//! the lines of a text.
//!
//! - [`Sink`]: where bytes go; [`Out`] makes a sink of a writer of std, [`Tape`] is one in memory.
//! - [`write_all`], [`write_whole`]: the write of all of some bytes, and that with a flush behind
//!   it.
//! - [`SinkFault`], [`WriteError`]: why a write was refused.
//! - [`Source`]: where bytes come from; [`In`] makes a source of a reader of std, [`Reel`] is one
//!   in memory.
//! - [`read_input`]: the read of all bytes of a source, which are at most [`MOST_INPUT_BYTES`].
//! - [`SourceFault`], [`InputError`]: why a read was refused.
//! - [`TextLines`]: the lines of a text with their numbers.
#![tactic(auto)]

mod input;
mod out;
mod reel;
mod sink;
mod source;
mod tape;
mod text_lines;
mod write_error;

pub use input::In;
pub use out::Out;
pub use reel::Reel;
pub use sink::{Sink, SinkFault, write_all, write_whole};
pub use source::{InputError, MOST_INPUT_BYTES, Source, SourceFault, read_input};
pub use tape::Tape;
pub use text_lines::TextLines;
pub use write_error::WriteError;
