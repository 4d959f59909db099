//! Pictures of drawings as raw Netpbm PPM, painted band by band, by any number of workers.
//!
//! - [`Window`]: which part of the plane a picture shows.
//! - [`paint`]: the pixels of a window, as a [`Raster`].
//! - [`ppm_to`]: the whole picture, written band after band.
//! - [`Gate`], [`OpenGate`]: what workers pass for each tile of a band before they paint it.
#![tactic(auto)]

mod crew;
mod gathering;
mod painting;
mod pass;
mod ppm;
mod rounds;
mod rows;
mod runs;
mod sharing;
mod shown_rows;
mod tiles;

pub use gf_gate::{Gate, OpenGate};
pub use gf_scanline::Window;
pub use painting::{Raster, paint};
pub use ppm::ppm_to;
