//! Worked examples of threads: sites, their links and their sessions, and those who paint pictures.
//!
//! - `sites`, `worlds`: commands with their answers. `tables` reads them, and
//!   `site_commands` and `world_commands` act;
//! - `links`: what one link carries;
//! - `workers`, `sessions`, `two_sites`: one worker, and two to eight sites in threads of their own,
//!   which run the scripts that `scripts` reads;
//! - `gates`: that sites run at the same time;
//! - `tiles`, `painters`: who paints what of a picture, and that workers paint at the same time.
#![tactic(auto)]

#[cfg(test)]
mod gates;
#[cfg(test)]
mod links;
#[cfg(test)]
mod painters;
#[cfg(test)]
mod scripts;
#[cfg(test)]
mod sessions;
#[cfg(test)]
mod site_commands;
#[cfg(test)]
mod sites;
#[cfg(test)]
mod tables;
#[cfg(test)]
mod tiles;
#[cfg(test)]
mod two_sites;
#[cfg(test)]
mod workers;
#[cfg(test)]
mod world_commands;
#[cfg(test)]
mod worlds;
