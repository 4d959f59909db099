//! Edges.

ghost use Rattle.std.specs.Prelude.{◌≡◌};
ghost use Rattle.gf_scanline.specs.Between.{comes_between, comes_from, comes_upto};

use gf_shape::Point;

/// An edge, from one point to another.
#[derive(Clone, Copy, Debug, PartialEq, Eq)]
pub struct Edge {
    pub from: Point,
    pub to: Point,
}

impl Edge {
    /// Whether the edge comes between two heights: a point is at or past `low`, one at or before
    /// `high`.
    pub(crate) fn comes_between(self, low: i32, high: i32) -> bool
        ensures { result ≡ comes_between low high self }
    {
        self.comes_from(low) && self.comes_upto(high)
    }

    #[tactic(auto, using(std::proofs::lemmas::Int::ints))]
    fn comes_from(self, low: i32) -> bool
        ensures { result ≡ comes_from low self }
    {
        low <= self.from.y || low <= self.to.y
    }

    #[tactic(auto, using(std::proofs::lemmas::Int::ints))]
    fn comes_upto(self, high: i32) -> bool
        ensures { result ≡ comes_upto high self }
    {
        self.from.y <= high || self.to.y <= high
    }
}
