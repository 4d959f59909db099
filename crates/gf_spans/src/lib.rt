//! Spans of whole numbers: places on a line, and what they enclose.
//!
//! - [`Span`]: the numbers from one to another.
//! - [`Crossing`]: a place on the line, at a number or between two.
//! - [`Meetings`]: crossings and contacts, which join to the spans that they enclose.
#![tactic(auto)]

mod crossing;
mod meetings;
mod span;

pub use crossing::Crossing;
pub use meetings::Meetings;
pub use span::Span;
