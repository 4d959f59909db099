//! What a site is to do.

use gf_json::Command;

/// The commands of one site, in turn.
#[derive(Drop)]
pub struct Script(pub Vec<Command>);
