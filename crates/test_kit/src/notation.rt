//! Ids, values and operations as the tables of examples write them. Examples are `2.1 after 1 0 3:
//! 1.1 layer 3` and `1.1: box 3 4, colour ff0000`. A text of another form has no value.

use crate::plain;
use gf_ops::{Change, Clock, Form, History, Ids, ObjectId, Op, OpId, Points, Start, Value};
use gf_plane::{Point, Rgb};
use std::alloc::Global;

/// `2.1`: the site and its number.
pub fn id(text: &str) -> Option<OpId> {
    let (site, seq) = text.split_once('.')?;
    Some(OpId {
        site: site.parse().ok()?,
        seq: seq.parse().ok()?,
    })
}

/// Ids in brackets, as `[ 1.1 2.1 ]`, behind a text.
pub fn push_ids(alloc: Global, text: &mut String, ids: &[OpId]) -> Option<()> {
    text.push_str("[").ok()?;
    for id in ids {
        let id = format!(in alloc; " {id}").ok()?;
        text.push_str(id.as_str()).ok()?;
    }
    text.push_str(" ]").ok()
}

/// The ids of a history's operations, in the order in which these were added.
pub fn history_ids(alloc: Global, history: &History) -> Option<String> {
    let mut ids = String::new(alloc);
    for op in history.ops() {
        let id = format!(in alloc; "{} ", op.id).ok()?;
        ids.push_str(id.as_str()).ok()?;
    }
    Some(ids)
}

/// A text in which `\n`, `\r` and `\t` stand for ends of lines and for tabs.
pub fn unescaped(alloc: Global, text: &str) -> Option<String> {
    let lines = text.replace(alloc, "\\n", "\n").ok()?;
    let lines = lines.as_str().replace(alloc, "\\r", "\r").ok()?;
    lines.as_str().replace(alloc, "\\t", "\t").ok()
}

/// An answer of yes or no.
pub fn yes(answer: bool) -> &'static str {
    if answer { "yes" } else { "no" }
}

/// `1 0 3`: what is known of the first sites. Of the others nothing is known.
pub fn clock(text: &str) -> Option<Clock> {
    let mut known = [0; 8];
    for (place, word) in text.split_whitespace().enumerate() {
        *known.get_mut(place)? = word.parse().ok()?;
    }
    Some(Clock(known))
}

/// `-5,7`.
pub fn point(text: &str) -> Option<Point> {
    let (x, y) = text.split_once(',')?;
    Some(Point {
        x: x.parse().ok()?,
        y: y.parse().ok()?,
    })
}

/// `0,0*63`: a point, and how often it stands there.
fn repeated(text: &str) -> Option<(Point, u32)> {
    match text.split_once('*') {
        Some((word, count)) => Some((point(word)?, count.parse().ok()?)),
        None => Some((point(text)?, 1)),
    }
}

/// `0,0*63 10,-20`.
pub fn points(alloc: Global, text: &str) -> Option<Vec<Point>> {
    let mut points = Vec::new(alloc);
    for word in text.split_whitespace() {
        let (point, count) = repeated(word)?;
        for _ in 0..count {
            points.push(point).ok()?;
        }
    }
    Some(points)
}

/// `0000ff`.
pub fn colour(text: &str) -> Option<Rgb> {
    let [none, r, g, b] = u32::from_str_radix(text, 16).ok()?.to_be_bytes();
    if none == 0 {
        Some(Rgb { r, g, b })
    } else {
        None
    }
}

/// `3 4`.
fn pair(text: &str) -> Option<(u32, u32)> {
    let (first, second) = text.split_once(' ')?;
    Some((first.parse().ok()?, second.parse().ok()?))
}

/// `layer 3`: an attribute and its value.
pub fn value(alloc: Global, text: &str) -> Option<Value> {
    let (attribute, to) = text.split_once(' ')?;
    match attribute {
        "place" => Some(Value::Place(point(to)?)),
        "points" => Some(Value::Points(Points::new(points(alloc, to)?))),
        "size" => {
            let (width, height) = pair(to)?;
            Some(Value::Size(width, height))
        }
        "colour" => Some(Value::Colour(colour(to)?)),
        "layer" => Some(Value::Layer(to.parse().ok()?)),
        "shown" => Some(Value::Shown(to.parse().ok()?)),
        _ => None,
    }
}

/// `box 3 4`, `circle 3`, `ellipse 3 2`, `polygon 0,0 8,0 0,8`.
pub fn form(alloc: Global, text: &str) -> Option<Form> {
    let (kind, size) = text.split_once(' ')?;
    match kind {
        "box" => {
            let (width, height) = pair(size)?;
            Some(Form::Rect(width, height))
        }
        "circle" => Some(Form::Circle(size.parse().ok()?)),
        "ellipse" => {
            let (rx, ry) = pair(size)?;
            Some(Form::Ellipse(rx, ry))
        }
        "polygon" => Some(Form::Polygon(Points::new(points(alloc, size)?))),
        _ => None,
    }
}

/// `box 3 4, place 100,200, colour ff0000, layer 3, shown false`: a plain object but for its
/// values.
pub fn start(alloc: Global, text: &str) -> Option<Start> {
    let mut parts = text.split(", ");
    let mut start = plain(form(alloc, parts.next()?)?);
    for part in parts {
        match value(alloc, part)? {
            Value::Place(place) => start.place = place,
            Value::Colour(colour) => start.colour = colour,
            Value::Layer(layer) => start.layer = layer,
            Value::Shown(shown) => start.shown = shown,
            Value::Size(_, _) | Value::Points(_) => return None,
        }
    }
    Some(start)
}

/// `1.1 1.2`.
fn ids(alloc: Global, text: &str) -> Option<Ids> {
    let mut ids = Vec::new(alloc);
    for word in text.split_whitespace() {
        ids.push(id(word)?).ok()?;
    }
    Some(Ids::new(ids))
}

/// `layer 3`, or `layer 3 aim 1.1 1.2`, of this object.
fn set(alloc: Global, object: OpId, text: &str) -> Option<Change> {
    let (to, aim) = text.split_once(" aim ").unwrap_or((text, ""));
    Some(Change::Set {
        object: ObjectId(object),
        value: value(alloc, to)?,
        aim: ids(alloc, aim)?,
    })
}

/// `1.1 layer 3`, or what a new object is.
pub fn change(alloc: Global, text: &str) -> Option<Change> {
    let (first, rest) = text.split_once(' ')?;
    match id(first) {
        Some(object) => set(alloc, object, rest),
        None => Some(Change::Create(start(alloc, text)?)),
    }
}

/// `1.1: box 3 4`, or `2.1 after 1 0 3: 1.1 layer 3` of a site that knows operations.
pub fn operation(alloc: Global, text: &str) -> Option<Op> {
    let (front, what) = text.split_once(": ")?;
    let (name, known) = front.split_once(" after ").unwrap_or((front, ""));
    Some(Op {
        id: id(name)?,
        past: clock(known)?,
        change: change(alloc, what)?,
    })
}
