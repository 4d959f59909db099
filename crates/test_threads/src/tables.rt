//! The commands of the tables, each with the sites that it acts on.

use crate::{site_commands, world_commands};
use gf_site::Site;
use std::alloc::Global;
use std::test::Fail;
use test_kit::notation::history_ids;
use test_kit::{Answers, ask};

/// What commands act on: a site, and one that is kept aside.
#[derive(Drop)]
pub(crate) struct Scene {
    pub(crate) site: Site,
    pub(crate) aside: Site,
}

impl Scene {
    fn new(alloc: Global) -> Scene {
        Scene {
            site: Site::new(alloc, 1),
            aside: Site::new(alloc, 2),
        }
    }
}

impl Answers for Scene {
    fn answer(&mut self, alloc: Global, question: &str) -> Option<String> {
        let (verb, text) = question.split_once(' ').unwrap_or((question, ""));
        told(alloc, self, verb, text)
    }
}

/// Each command of a table, which begins with the new site 1, has its answer.
pub(crate) fn answers(alloc: Global, rows: &str) -> Result<(), Fail> {
    ask(alloc, rows, &mut Scene::new(alloc))
}

/// The answer to the command of this verb.
fn told(alloc: Global, scene: &mut Scene, verb: &str, text: &str) -> Option<String> {
    match verb {
        "site" => renew(alloc, scene, text),
        "copy" => copy(alloc, scene),
        "swap" => swap(alloc, scene),
        "author" => site_commands::author(alloc, &mut scene.site, text),
        "fill" => site_commands::fill(alloc, &mut scene.site, text),
        "receive" => site_commands::receive(alloc, &mut scene.site, text),
        "step" => site_commands::step(alloc, &mut scene.site),
        "world" => world_commands::run(alloc, text),
        _ => told_of(alloc, &scene.site, verb, text),
    }
}

/// The answer to a command that changes nothing.
fn told_of(alloc: Global, site: &Site, verb: &str, text: &str) -> Option<String> {
    match verb {
        "operations" => history_ids(alloc, site.history()),
        "held" => site_commands::held(alloc, site),
        "versions" => site_commands::versions(alloc, site, text),
        "past" => site_commands::past(alloc, site.history(), text),
        _ => None,
    }
}

/// A new site of this number.
fn renew(alloc: Global, scene: &mut Scene, text: &str) -> Option<String> {
    let number: u8 = text.parse().ok()?;
    if !(1..=8).contains(&number) {
        return None;
    }
    scene.site = Site::new(alloc, number);
    format!(in alloc; "{}", scene.site.number()).ok()
}

/// Keeps a copy of the site aside.
fn copy(alloc: Global, scene: &mut Scene) -> Option<String> {
    scene.aside = scene.site.copy(alloc).ok()?;
    String::from_str(alloc, "ok").ok()
}

/// Goes on with the site that was kept aside.
fn swap(alloc: Global, scene: &mut Scene) -> Option<String> {
    std::mem::swap(&mut scene.site, &mut scene.aside);
    String::from_str(alloc, "ok").ok()
}
