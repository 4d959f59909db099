//! The links of a session: one from each site to every other, in one table, with all seats.
//!
//! - [`Mesh`]: the links between some sites, made by `new` with the peers of each site, and ended
//!   by `settle`.
#![tactic(auto)]

mod joining;
mod settling;

pub use joining::Mesh;
