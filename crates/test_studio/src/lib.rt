//! Worked examples, by public calls alone, of what no command shows.
//!
//! - `dripping`: texts that go out in pieces;
//! - `bases`, `taken`: what a site takes of a drawing, and on what base.
#![tactic(auto)]

#[cfg(test)]
mod bases;
#[cfg(test)]
mod dripping;
#[cfg(test)]
mod taken;
