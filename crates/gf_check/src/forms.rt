//! The forms of the values of operation lines and command lines.

use crate::keys::Key;
use gf_plane::rgb_of_hex;
use serde_json::Value;

/// What has to stand at a key.
#[derive(Clone, Copy, PartialEq, Eq)]
pub(crate) enum ValueForm {
    /// A word that the keys of the line were chosen by.
    Word,
    Site,
    Attribute,
    Id,
    Clock,
    Place,
    Size,
    EqualSize,
    Points,
    Colour,
    Layer,
    Truth,
    Aim,
}

/// What has to stand at a key of this line.
pub(crate) fn form_of(line: &Value, key: Key) -> ValueForm {
    match key {
        Key::Op | Key::Do | Key::Kind => ValueForm::Word,
        Key::Site => ValueForm::Site,
        Key::Id | Key::Object => ValueForm::Id,
        Key::Past => ValueForm::Clock,
        Key::Place => ValueForm::Place,
        Key::Size if word_at(line, "kind") == Some("circle") => ValueForm::EqualSize,
        Key::Size => ValueForm::Size,
        Key::Points => ValueForm::Points,
        Key::Colour => ValueForm::Colour,
        Key::Layer => ValueForm::Layer,
        Key::Shown => ValueForm::Truth,
        Key::Set => ValueForm::Attribute,
        Key::To => form_of_attribute(line),
        Key::Aim | Key::With => ValueForm::Aim,
    }
}

/// What has to be the new value of the attribute that the line names.
fn form_of_attribute(line: &Value) -> ValueForm {
    match word_at(line, "set") {
        Some("place") => ValueForm::Place,
        Some("points") => ValueForm::Points,
        Some("size") => ValueForm::Size,
        Some("colour") => ValueForm::Colour,
        Some("layer") => ValueForm::Layer,
        Some("shown") => ValueForm::Truth,
        _ => ValueForm::Word,
    }
}

fn word_at<'v>(line: &'v Value, key: &str) -> Option<&'v str> {
    line.get(key)?.as_str()
}

impl ValueForm {
    /// What a value of this form is.
    pub(crate) fn words(self) -> &'static str {
        match self {
            ValueForm::Word => "a word",
            ValueForm::Attribute => {
                "\"place\", \"points\", \"size\", \"colour\", \"layer\" or \"shown\""
            }
            ValueForm::Id | ValueForm::Place | ValueForm::Size => "a list of two whole numbers",
            ValueForm::Clock => "a list of eight whole numbers",
            ValueForm::EqualSize => "a list of two equal whole numbers",
            ValueForm::Points => "a list of pairs of whole numbers",
            ValueForm::Colour => "six hexadecimal digits",
            ValueForm::Site | ValueForm::Layer => "a whole number",
            ValueForm::Truth => "true or false",
            ValueForm::Aim => "a list of pairs of whole numbers that rise, each once",
        }
    }

    /// Whether the value has this form.
    pub(crate) fn suits(self, value: &Value) -> bool {
        match self {
            ValueForm::Word => true,
            ValueForm::Attribute => is_attribute(value),
            ValueForm::Id | ValueForm::Place | ValueForm::Size => pair(value).is_some(),
            ValueForm::Clock => is_clock(value),
            ValueForm::EqualSize => match pair(value) {
                Some((width, height)) => width == height,
                None => false,
            },
            ValueForm::Points => are_pairs(value),
            ValueForm::Colour => is_colour(value),
            ValueForm::Site | ValueForm::Layer => value.as_i64().is_some(),
            ValueForm::Truth => value.as_bool().is_some(),
            ValueForm::Aim => are_rising(value),
        }
    }
}

fn is_attribute(value: &Value) -> bool {
    match value.as_str() {
        Some("place" | "points" | "size" | "colour" | "layer" | "shown") => true,
        _ => false,
    }
}

fn is_colour(value: &Value) -> bool {
    match value.as_str() {
        Some(text) => rgb_of_hex(text.as_bytes()).is_some(),
        None => false,
    }
}

fn is_clock(value: &Value) -> bool {
    let Some(entries) = elements(value) else {
        return false;
    };
    for entry in entries {
        if entry.as_i64().is_none() {
            return false;
        }
    }
    entries.len() == 8
}

fn are_pairs(value: &Value) -> bool {
    let Some(values) = elements(value) else {
        return false;
    };
    for value in values {
        if pair(value).is_none() {
            return false;
        }
    }
    true
}

/// Whether the value is a list of pairs that rise, each once.
fn are_rising(value: &Value) -> bool {
    let Some(values) = elements(value) else {
        return false;
    };
    let mut last = (i64::MIN, i64::MIN);
    for (index, value) in values.iter().enumerate() {
        let Some(next) = pair(value) else {
            return false;
        };
        if index > 0 && next <= last {
            return false;
        }
        last = next;
    }
    true
}

/// The elements of a list.
pub(crate) fn elements(value: &Value) -> Option<&[Value]> {
    match value.as_array() {
        Some(list) => Some(list.as_slice()),
        None => None,
    }
}

/// Two whole numbers.
pub(crate) fn pair(value: &Value) -> Option<(i64, i64)> {
    match elements(value)? {
        [first, second] => Some((first.as_i64()?, second.as_i64()?)),
        _ => None,
    }
}
