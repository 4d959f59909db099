//! The fingerprint of a value, which identifies most values.

ghost use Rattle.std.specs.Prelude.{◌≡◌, option_copied};
ghost use Rattle.std.specs.Ordering.{is_eq};
ghost use Rattle.gf_classes.specs.Fingerprints.{fingerprint_cmp, are_same};
ghost use Rattle.gf_classes.specs.Fingerprints.{point_fingerprint, fingerprint_of};
ghost use Rattle.gf_classes.specs.Fingerprints.{has_own_fingerprint};

use gf_ops::{Attr, Value};
use gf_plane::{Point, Rgb};

/// The attribute of a value and three numbers of it. They determine the value, but of a list of
/// points only the first one.
#[derive(Clone, Copy, PartialEq, Eq, PartialOrd, Ord)]
pub(crate) struct Fingerprint {
    pub attribute: Attr,
    pub first: i64,
    pub second: i64,
    pub third: i64,
}

impl Fingerprint {
    fn new(attribute: Attr, first: i64, second: i64, third: i64) -> Fingerprint
        ensures { result ≡ record {
          attribute = attribute;
          first = first;
          second = second;
          third = third;
        } }
    {
        Fingerprint {
            attribute,
            first,
            second,
            third,
        }
    }
}

/// The fingerprint of the attribute and a point, if there is one.
fn point_fingerprint(attribute: Attr, point: Option<&Point>) -> Fingerprint
    ensures { result ≡ point_fingerprint attribute (option_copied point.entry) }
{
    match point {
        Some(point) => Fingerprint::new(attribute, i64::from(point.x), i64::from(point.y), 0),
        None => Fingerprint::new(attribute, 0, 0, 0),
    }
}

/// The fingerprint of the value.
pub(crate) fn fingerprint_of(value: &Value) -> Fingerprint
    ensures { result ≡ fingerprint_of value.now }
{
    let attribute = value.attribute();
    match value {
        Value::Place(place) => point_fingerprint(attribute, Some(place)),
        Value::Points(points) => point_fingerprint(attribute, points.as_slice().first()),
        Value::Size(width, height) => {
            Fingerprint::new(attribute, i64::from(*width), i64::from(*height), 0)
        }
        Value::Colour(Rgb { r, g, b }) => {
            Fingerprint::new(attribute, i64::from(*r), i64::from(*g), i64::from(*b))
        }
        Value::Layer(layer) => Fingerprint::new(attribute, i64::from(*layer), 0, 0),
        Value::Shown(shown) => Fingerprint::new(attribute, i64::from(*shown), 0, 0),
    }
}

/// Whether no other value has the fingerprint of this one.
pub(crate) fn has_own_fingerprint(value: &Value) -> bool
    ensures { result ≡ has_own_fingerprint value.now }
{
    match value {
        Value::Points(_) => false,
        Value::Place(_)
        | Value::Size(_, _)
        | Value::Colour(_)
        | Value::Layer(_)
        | Value::Shown(_) => true,
    }
}

/// Whether both are one fingerprint.
fn are_one(fingerprint: Fingerprint, other: Fingerprint) -> bool
    ensures { result ≡ is_eq (fingerprint_cmp fingerprint other) }
{
    fingerprint.cmp(&other).is_eq()
}

/// Whether both are one fingerprint, or both are none.
pub(crate) fn are_same(fingerprint: Option<Fingerprint>, other: Option<Fingerprint>) -> bool
    ensures { result ≡ are_same fingerprint other }
{
    match (fingerprint, other) {
        (Some(fingerprint), Some(other)) => are_one(fingerprint, other),
        (None, None) => true,
        _ => false,
    }
}
