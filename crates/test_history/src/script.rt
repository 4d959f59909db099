//! The commands that act on a history and a buffer.

use crate::{buffer_commands, history_commands, operation_commands, version_commands};
use gf_causal::Buffer;
use gf_ops::History;
use std::alloc::Global;
use test_kit::Answers;
use test_kit::notation::history_ids;

/// What commands act on.
#[derive(Drop)]
pub(crate) struct Scene {
    pub(crate) history: History,
    pub(crate) buffer: Buffer,
}

impl Scene {
    pub(crate) fn new(alloc: Global) -> Scene {
        Scene {
            history: History::new(alloc),
            buffer: Buffer::new(alloc),
        }
    }
}

impl Answers for Scene {
    fn answer(&mut self, alloc: Global, question: &str) -> Option<String> {
        let (verb, text) = question.split_once(' ').unwrap_or((question, ""));
        told(alloc, self, verb, text)
    }
}

/// The answer to the command of this verb.
fn told(alloc: Global, scene: &mut Scene, verb: &str, text: &str) -> Option<String> {
    match verb {
        "new" => renew(alloc, scene),
        "add" => history_commands::add(alloc, &mut scene.history, text),
        "offer" => buffer_commands::offer(alloc, scene, text),
        "held" => buffer_commands::held(alloc, &scene.buffer),
        "take" => buffer_commands::take(alloc, &mut scene.buffer, &scene.history),
        "take_out" => buffer_commands::take_out(alloc, &mut scene.buffer, text),
        "deliver" => buffer_commands::deliver(alloc, scene),
        "backwards" => buffer_commands::backwards(alloc, scene, text.parse().ok()?),
        "deliver_all" => buffer_commands::deliver_all(alloc, scene),
        _ => told_of(alloc, &scene.history, verb, text),
    }
}

fn renew(alloc: Global, scene: &mut Scene) -> Option<String> {
    *scene = Scene::new(alloc);
    String::from_str(alloc, "ok").ok()
}

/// The answer to a command that changes nothing.
fn told_of(alloc: Global, history: &History, verb: &str, text: &str) -> Option<String> {
    match verb {
        "check" => history_commands::check(alloc, history, text),
        "operations" => history_ids(alloc, history),
        "count" => history_commands::count(alloc, history, text),
        "get" => history_commands::get(alloc, history, text),
        "alone" => buffer_commands::alone(alloc, history, text),
        "conflict" => history_commands::standing(alloc, history, text),
        _ => told_of_versions(alloc, history, verb, text),
    }
}

/// The answer to a command about the versions of a history, or about operations.
fn told_of_versions(alloc: Global, history: &History, verb: &str, text: &str) -> Option<String> {
    match verb {
        "groups" => version_commands::groups(alloc, history, text),
        "versions" => version_commands::versions(alloc, history, text),
        "all" => version_commands::all(alloc, history),
        "total" => version_commands::total(alloc, history),
        "ranked" => version_commands::ranking(alloc, history),
        "telling" => version_commands::telling(alloc, history, text),
        "looks" => version_commands::looks(alloc, history, text),
        "covers" => version_commands::covers(alloc, history, text),
        "settled" => version_commands::settled(alloc, history),
        "aimed" => version_commands::aimed(alloc, history, text),
        _ => operation_commands::answer(alloc, verb, text),
    }
}
