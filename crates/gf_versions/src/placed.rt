//! Versions at their places, ranked.

ghost use Rattle.std.specs.Prelude.{◌≡◌, ◌==◌, length};

use crate::VersionKey;
use gf_shape::Rgb;

/// A visible version: its shape at its settled place, and its settled colour.
#[derive(Drop)]
pub struct Placed<S> {
    pub key: VersionKey,
    pub shape: S,
    pub colour: Rgb,
}

/// The visible versions of a history, topmost first.
#[derive(Drop)]
pub struct Ranked<S> {
    pub items: Vec<Placed<S>>,
}

impl<S> Ranked<S> {
    /// How many visible versions there are.
    pub fn len(&self) -> usize
        ensures { result ≡ length self.now.items.items }
    {
        self.items.len()
    }

    /// Whether there is no visible version.
    pub fn is_empty(&self) -> bool
        ensures { result ≡ (length self.now.items.items == 0) }
    {
        self.items.is_empty()
    }
}
