//! Commands about operations and their parts.

use gf_ops::{Attr, Op, Points, before, concurrent, direct_conflict};
use std::alloc::Global;
use test_kit::notation::{change, clock, id, operation, points, value, yes};

pub(crate) fn answer(alloc: Global, verb: &str, text: &str) -> Option<String> {
    match verb {
        "object" => object(alloc, text),
        "name" => name(alloc, text),
        _ => String::from_str(alloc, word(alloc, verb, text)?).ok(),
    }
}

/// The answers of one word.
fn word(alloc: Global, verb: &str, text: &str) -> Option<&'static str> {
    match verb {
        "range" | "itself" | "copy" => of_one(alloc, verb, &operation(alloc, text)?),
        "before" | "relation" => of_parts(alloc, verb, text),
        "within" => within(text),
        "change" => in_range(alloc, text),
        "attribute" => attribute_of(alloc, text),
        "equal" => equal(alloc, text),
        _ => None,
    }
}

fn in_range(alloc: Global, text: &str) -> Option<&'static str> {
    Some(yes(change(alloc, text)?.in_range()))
}

fn attribute_of(alloc: Global, text: &str) -> Option<&'static str> {
    Some(attribute(value(alloc, text)?.attribute()))
}

/// Whether an operation is in range, whether its copy equals it, and how it stands to itself.
fn of_one(alloc: Global, verb: &str, op: &Op) -> Option<&'static str> {
    match verb {
        "range" => Some(yes(op.in_range())),
        "copy" => copy(alloc, op),
        _ => itself(op),
    }
}

fn copy(alloc: Global, op: &Op) -> Option<&'static str> {
    Some(yes(op.copy(alloc).ok()? == *op))
}

fn itself(op: &Op) -> Option<&'static str> {
    if op.in_range() {
        standing(concurrent(op, op), direct_conflict(op, op))
    } else {
        None
    }
}

/// The two parts of a text.
fn parts(text: &str) -> Option<(&str, &str)> {
    text.split_once(" ; ")
}

/// How two operations stand to one another.
fn of_parts(alloc: Global, verb: &str, text: &str) -> Option<&'static str> {
    let (first, second) = parts(text)?;
    beside(alloc, verb, &operation(alloc, first)?, second)
}

fn beside(alloc: Global, verb: &str, a: &Op, second: &str) -> Option<&'static str> {
    of_two(verb, a, &operation(alloc, second)?)
}

/// Whether the first was known where the second was made, or what both are to one another, from
/// either side.
fn of_two(verb: &str, a: &Op, b: &Op) -> Option<&'static str> {
    if verb == "before" {
        return known(a, b);
    }
    let answer = related(a, b)?;
    if related(b, a)? == answer {
        Some(answer)
    } else {
        None
    }
}

fn known(a: &Op, b: &Op) -> Option<&'static str> {
    if a.in_range() && b.in_range() {
        Some(yes(before(a, b)))
    } else {
        None
    }
}

fn related(a: &Op, b: &Op) -> Option<&'static str> {
    if a.in_range() && b.in_range() {
        standing(concurrent(a, b), direct_conflict(a, b))
    } else {
        None
    }
}

/// Whether the first clock lies within the second.
fn within(text: &str) -> Option<&'static str> {
    let (first, second) = parts(text)?;
    Some(yes(clock(first)?.is_within(&clock(second)?)))
}

fn standing(concurrent: bool, conflict: bool) -> Option<&'static str> {
    match (concurrent, conflict) {
        (true, true) => Some("conflict"),
        (true, false) => Some("concurrent"),
        (false, false) => Some("ordered"),
        (false, true) => None,
    }
}

fn attribute(attribute: Attr) -> &'static str {
    match attribute {
        Attr::Place => "place",
        Attr::Points => "points",
        Attr::Size => "size",
        Attr::Colour => "colour",
        Attr::Layer => "layer",
        Attr::Shown => "shown",
    }
}

/// Whether two lists of points are equal, each held as it was given.
fn equal(alloc: Global, text: &str) -> Option<&'static str> {
    let (first, second) = parts(text)?;
    equals(alloc, &Points::new(points(alloc, first)?), second)
}

fn equals(alloc: Global, held: &Points, text: &str) -> Option<&'static str> {
    let listed = points(alloc, text)?;
    let same = held.as_slice() == listed.as_slice();
    if are_equal(alloc, held, &Points::new(listed)) == Some(same) {
        Some(yes(same))
    } else {
        None
    }
}

/// Whether two lists are equal, and so is the copy of the first.
fn are_equal(alloc: Global, a: &Points, b: &Points) -> Option<bool> {
    let equal = a == b;
    if (a != b) == equal || is_copied(alloc, a, b)? != equal {
        return None;
    }
    Some(equal)
}

fn is_copied(alloc: Global, a: &Points, b: &Points) -> Option<bool> {
    Some(a.copy(alloc).ok()? == *b)
}

/// The object that an operation makes or changes.
fn object(alloc: Global, text: &str) -> Option<String> {
    let object = operation(alloc, text)?.object();
    format!(in alloc; "{}", object.0).ok()
}

/// An id as it is printed.
fn name(alloc: Global, text: &str) -> Option<String> {
    format!(in alloc; "{}", id(text)?).ok()
}
