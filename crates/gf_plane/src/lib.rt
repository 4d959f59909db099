//! The plane of a drawing: its grid points, and the colours that they have.
//!
//! - [`Point`], with [`REACH`]: how far from the axes the points lie that a shape is made of.
//! - [`Rgb`]: a colour by its red, green and blue, as [`WHITE`] is. [`push_hex_rgb`] appends it in
//!   six hexadecimal digits, and [`rgb_of_hex`] reads these.
//!
//! A history speaks of points and colours, and stands on no shapes.
#![tactic(auto)]

mod colour;
mod hexadecimal;
mod point;

pub use colour::{Rgb, WHITE};
pub use hexadecimal::{push_hex_rgb, rgb_of_hex};
pub use point::{Point, REACH};
