//! The keys of operation lines and command lines, and which of them a line has to have.

use crate::reasons::KeyReason;
use serde_json::Value;

/// What a line is explained as.
#[derive(Clone, Copy, PartialEq, Eq)]
pub(crate) enum Sort {
    Operation,
    Command,
}

/// A key of a line.
#[derive(Clone, Copy, PartialEq, Eq)]
pub(crate) enum Key {
    Op,
    Do,
    Site,
    Id,
    Past,
    Kind,
    Place,
    Size,
    Points,
    Colour,
    Layer,
    Shown,
    Object,
    Set,
    To,
    Aim,
    With,
}

impl Key {
    /// The word for this key in a line.
    pub(crate) fn name(self) -> &'static str {
        match self {
            Key::Op => "op",
            Key::Do => "do",
            Key::Site => "site",
            Key::Id => "id",
            Key::Past => "past",
            Key::Kind => "kind",
            Key::Place => "place",
            Key::Size => "size",
            Key::Points => "points",
            Key::Colour => "colour",
            Key::Layer => "layer",
            Key::Shown => "shown",
            Key::Object => "object",
            Key::Set => "set",
            Key::To => "to",
            Key::Aim => "aim",
            Key::With => "with",
        }
    }
}

/// The keys that a line has beside those of its change.
fn keys_beside(sort: Sort) -> &'static [Key] {
    match sort {
        Sort::Operation => &[Key::Op, Key::Id, Key::Past],
        Sort::Command => &[Key::Do, Key::Site],
    }
}

/// The keys of a command that waits for an operation.
const AWAIT_KEYS: &[Key] = &[Key::Do, Key::Site, Key::Id];

/// The keys of a command that keeps versions of an object.
const KEEP_KEYS: &[Key] = &[Key::Do, Key::Site, Key::Object, Key::With];

/// The keys of a change that creates a box, a circle or an ellipse.
const SIZED_KEYS: &[Key] = &[
    Key::Kind,
    Key::Place,
    Key::Size,
    Key::Colour,
    Key::Layer,
    Key::Shown,
];

/// The keys of a change that creates a polygon.
const POLYGON_KEYS: &[Key] = &[
    Key::Kind,
    Key::Place,
    Key::Points,
    Key::Colour,
    Key::Layer,
    Key::Shown,
];

/// The keys of a change of an object.
const SET_KEYS: &[Key] = &[Key::Object, Key::Set, Key::To];

/// The keys of a change of an object that is aimed at operations.
const AIMED_KEYS: &[Key] = &[Key::Object, Key::Set, Key::To, Key::Aim];

/// The keys that a line has to have: those beside its change, and those of the change.
#[derive(Clone, Copy)]
pub(crate) struct Keys {
    pub(crate) beside: &'static [Key],
    pub(crate) change: &'static [Key],
}

impl Keys {
    /// Whether a key of this name is among these.
    pub(crate) fn have_name(self, name: &str) -> bool {
        has_name(self.beside, name) || has_name(self.change, name)
    }
}

/// The keys that a line of this sort has to have, or why that can't be told.
pub(crate) fn keys_of(line: &Value, sort: Sort) -> Result<Keys, KeyReason<'static>> {
    match sort {
        Sort::Operation => operation_keys(line),
        Sort::Command => command_keys(line),
    }
}

fn operation_keys(line: &Value) -> Result<Keys, KeyReason<'static>> {
    let change = match verb(line, "op")? {
        Some("create") => created_keys(line)?,
        Some("set") => changed_keys(line),
        _ => return Err(KeyReason::OtherForm("op", "\"create\" or \"set\"")),
    };
    Ok(Keys {
        beside: keys_beside(Sort::Operation),
        change,
    })
}

fn command_keys(line: &Value) -> Result<Keys, KeyReason<'static>> {
    let change = match verb(line, "do")? {
        Some("create") => created_keys(line)?,
        Some("set") => changed_keys(line),
        Some("await") => {
            return Ok(Keys {
                beside: AWAIT_KEYS,
                change: &[],
            });
        }
        Some("keep") => {
            return Ok(Keys {
                beside: KEEP_KEYS,
                change: &[],
            });
        }
        _ => return Err(KeyReason::OtherForm("do", "\"create\", \"set\", \"await\" or \"keep\"")),
    };
    Ok(Keys {
        beside: keys_beside(Sort::Command),
        change,
    })
}

/// The word that stands at this key, if a word stands there.
fn verb<'v>(line: &'v Value, key: &'static str) -> Result<Option<&'v str>, KeyReason<'static>> {
    match line.get(key) {
        Some(verb) => Ok(verb.as_str()),
        None => Err(KeyReason::Missing(key)),
    }
}

fn created_keys(line: &Value) -> Result<&'static [Key], KeyReason<'static>> {
    match verb(line, "kind")? {
        Some("box" | "circle" | "ellipse") => Ok(SIZED_KEYS),
        Some("polygon") => Ok(POLYGON_KEYS),
        _ => Err(KeyReason::OtherForm("kind", "\"box\", \"circle\", \"ellipse\" or \"polygon\"")),
    }
}

fn changed_keys(line: &Value) -> &'static [Key] {
    match line.get("aim") {
        Some(_) => AIMED_KEYS,
        None => SET_KEYS,
    }
}

/// Whether some line of this sort has a key of this name.
pub(crate) fn is_known(sort: Sort, name: &str) -> bool {
    has_name(keys_beside(sort), name)
        || has_name(SIZED_KEYS, name)
        || has_name(AIMED_KEYS, name)
        || name == Key::Points.name()
        || name == Key::Id.name()
        || sort == Sort::Command && name == Key::With.name()
}

/// Whether a key of this name is among these.
fn has_name(keys: &[Key], name: &str) -> bool {
    for key in keys {
        if key.name() == name {
            return true;
        }
    }
    false
}
