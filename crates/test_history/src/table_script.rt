//! The commands that act on a site, which has a table.

use crate::{looking, rounds, table_commands, version_commands};
use gf_site::Site;
use std::alloc::Global;
use test_kit::Answers;
use test_kit::notation::operation;

/// What commands act on.
#[derive(Drop)]
pub(crate) struct TableScene {
    site: Site,
}

impl TableScene {
    pub(crate) fn new(alloc: Global) -> TableScene {
        TableScene {
            site: Site::new(alloc, 1),
        }
    }
}

impl Answers for TableScene {
    fn answer(&mut self, alloc: Global, question: &str) -> Option<String> {
        let (verb, text) = question.split_once(' ').unwrap_or((question, ""));
        told(alloc, self, verb, text)
    }
}

/// The answer to the command of this verb.
fn told(alloc: Global, scene: &mut TableScene, verb: &str, text: &str) -> Option<String> {
    match verb {
        "new" => {
            scene.site = Site::new(alloc, 1);
            said(alloc, Some(()))
        }
        "add" => {
            let op = operation(alloc, text)?;
            said(alloc, rounds::add(&mut scene.site, op))
        }
        "rounds" => {
            let count: u32 = text.parse().ok()?;
            said(alloc, rounds::rounds(alloc, &mut scene.site, count))
        }
        "hidings" => {
            let count: u32 = text.parse().ok()?;
            said(alloc, rounds::hidings(alloc, &mut scene.site, count))
        }
        _ => told_of(alloc, &scene.site, verb, text),
    }
}

fn said(alloc: Global, done: Option<()>) -> Option<String> {
    done?;
    String::from_str(alloc, "ok").ok()
}

/// The answer to a command that changes nothing.
fn told_of(alloc: Global, site: &Site, verb: &str, text: &str) -> Option<String> {
    match verb {
        "groups" => table_commands::groups(alloc, site, text),
        "plain" => version_commands::groups(alloc, site.history(), text),
        "plain_count" => version_commands::versions(alloc, site.history(), text),
        "copied" => table_commands::copied(alloc, site, text),
        "operations" => table_commands::operations(alloc, site, text),
        "visible" => table_commands::visible(alloc, site, text),
        "ranked" => table_commands::ranking(alloc, site, text),
        "total" => table_commands::total(alloc, site),
        "drawn" => table_commands::drawn(alloc, site, text),
        "versions" => looking::all(alloc, site, text),
        "plain_versions" => looking::plain_all(alloc, site, text),
        "top" => looking::top(alloc, site, text),
        "aimed" => version_commands::aimed(alloc, site.history(), text),
        "plain_top" => looking::plain_top(alloc, site, text),
        _ => None,
    }
}
