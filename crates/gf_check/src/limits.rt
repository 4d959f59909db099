//! The limits of the values of operation lines and command lines.

use crate::forms::{ValueForm, elements, form_of, pair};
use crate::keys::Key;
use crate::reasons::{Beyond, Side};
use serde_json::Value;

/// The least and the greatest number of a kind, and the words for the kind.
#[derive(Clone, Copy)]
struct Limits {
    word: &'static str,
    part: &'static str,
    low: i64,
    high: i64,
}

fn within(word: &'static str, part: &'static str, low: i64, high: i64) -> Limits {
    Limits {
        word,
        part,
        low,
        high,
    }
}

impl Limits {
    /// The fault of a number that is not within the limits.
    fn fault(self, number: i64) -> Option<Beyond> {
        if number < self.low {
            return Some(self.beyond(number, Side::Below, self.low));
        }
        if self.high < number {
            return Some(self.beyond(number, Side::Above, self.high));
        }
        None
    }

    fn beyond(self, number: i64, side: Side, limit: i64) -> Beyond {
        Beyond {
            word: self.word,
            part: self.part,
            number,
            side,
            limit,
        }
    }
}

/// The fault of the first number at one of these keys that is not within its limits.
pub(crate) fn limit_fault(line: &Value, keys: &[Key]) -> Option<Beyond> {
    for key in keys {
        if let Some(value) = line.get(key.name()) {
            let fault = value_fault(*key, form_of(line, *key), value);
            if fault.is_some() {
                return fault;
            }
        }
    }
    None
}

/// The fault of the first number of a value that is not within its limits.
fn value_fault(key: Key, form: ValueForm, value: &Value) -> Option<Beyond> {
    match form {
        ValueForm::Id => id_fault(key, value),
        ValueForm::Clock => first_fault(within("past", "", 0, 10_000), elements(value)?),
        ValueForm::Place => first_fault(
            within("place", "", -1_000_000, 1_000_000),
            elements(value)?,
        ),
        ValueForm::Size | ValueForm::EqualSize => first_fault(
            within("size", "", 1, 1_000_000),
            elements(value)?,
        ),
        ValueForm::Points => points_fault(elements(value)?),
        ValueForm::Site => within("site", "", 1, 8).fault(value.as_i64()?),
        ValueForm::Layer => within("layer", "", 0, 9_999).fault(value.as_i64()?),
        ValueForm::Aim => aim_fault(key, elements(value)?),
        ValueForm::Word | ValueForm::Attribute | ValueForm::Colour | ValueForm::Truth => None,
    }
}

/// The fault of the first of these numbers that is not within the limits.
fn first_fault(limits: Limits, numbers: &[Value]) -> Option<Beyond> {
    for number in numbers {
        let fault = limits.fault(number.as_i64()?);
        if fault.is_some() {
            return fault;
        }
    }
    None
}

fn id_fault(key: Key, value: &Value) -> Option<Beyond> {
    let (site, number) = pair(value)?;
    let fault = within(key.name(), ": site", 1, 8).fault(site);
    if fault.is_some() {
        return fault;
    }
    within(key.name(), ": number", 1, 10_000).fault(number)
}

fn points_fault(points: &[Value]) -> Option<Beyond> {
    let fault = within("points", ": count", 3, 64).fault(count_of(points));
    if fault.is_some() {
        return fault;
    }
    for point in points {
        let fault = first_fault(
            within("points", "", -1_000_000, 1_000_000),
            elements(point)?,
        );
        if fault.is_some() {
            return fault;
        }
    }
    None
}

fn aim_fault(key: Key, ids: &[Value]) -> Option<Beyond> {
    let fault = within(key.name(), ": count", 0, 1_000).fault(count_of(ids));
    if fault.is_some() {
        return fault;
    }
    for id in ids {
        let fault = id_fault(key, id);
        if fault.is_some() {
            return fault;
        }
    }
    None
}

/// How many values there are.
fn count_of(values: &[Value]) -> i64 {
    i64::try_from(values.len()).unwrap_or(i64::MAX)
}
