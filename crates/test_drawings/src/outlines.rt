//! Outlines as rows write them, and some that are made by themselves.

use gf_shape::{Chain, Disc, Outline, Oval, Point};
use std::alloc::Global;
use test_kit::{Answers, at};

/// `disc 3,4 5`, `oval 3,4 5 6`, `chain 0,0 8,0 0,8 0,0`.
pub(crate) fn drawn(alloc: Global, outline: &Outline) -> Option<String> {
    match outline {
        Outline::Chain(chain) => corners(alloc, chain.boxed(), chain.points()),
        Outline::Disc(disc) => {
            let Point { x, y } = disc.centre();
            format!(in alloc; "disc {x},{y} {}", disc.radius()).ok()
        }
        Outline::Oval(oval) => {
            let Point { x, y } = oval.centre();
            format!(in alloc; "oval {x},{y} {} {}", oval.rx(), oval.ry()).ok()
        }
    }
}

fn corners(alloc: Global, boxed: bool, points: &[Point]) -> Option<String> {
    let front = if boxed { "boxed chain" } else { "chain" };
    let mut text = String::from_str(alloc, front).ok()?;
    for point in points {
        let word = format!(in alloc; " {},{}", point.x, point.y).ok()?;
        text.push_str(word.as_str()).ok()?;
    }
    Some(text)
}

/// The outline of a kind.
#[derive(Drop)]
pub(crate) struct Outlines;

impl Answers for Outlines {
    fn answer(&mut self, alloc: Global, question: &str) -> Option<String> {
        match question {
            "disc" => drawn(alloc, &disc()),
            "oval" => drawn(alloc, &oval()),
            "chain" => drawn(alloc, &chain(alloc)?),
            _ => None,
        }
    }
}

#[tactic(auto, unfolding(gf_plane::specs::Reach::is_reached))]
fn disc() -> Outline {
    Outline::Disc(Disc::new(at(10_000_000, 0), 10_000_000))
}

#[tactic(auto, unfolding(gf_plane::specs::Reach::is_reached))]
fn oval() -> Outline {
    Outline::Oval(Oval::new(at(10_000_000, 0), 10_000_000, 1))
}

#[tactic(auto, unfolding(gf_plane::specs::Reach::is_reached))]
fn chain(alloc: Global) -> Option<Outline> {
    let corners = [at(0, 0), at(-1_000_000, 0), at(0, -1_000_000), at(0, 0)];
    let points = Vec::from_array(alloc, corners).ok()?;
    Some(Outline::Chain(Chain::new(false, points)))
}
