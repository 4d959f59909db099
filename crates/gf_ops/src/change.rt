//! What an operation changes.

ghost use Rattle.std.specs.Prelude.{◌≡◌, ◌<◌};
ghost use Rattle.gf_ops.specs.Attribute.{attribute_index, attribute_of};
ghost use Rattle.gf_ops.specs.declared.change.Change.TheVariants.{Set};
ghost use Rattle.gf_ops.specs.declared.change.Value.TheVariants.{Shown};

use crate::{Ids, ObjectId, Points};
use gf_plane::{Point, Rgb};

/// What an object has a value of. Boxes, circles and ellipses have no `Points`, polygons no `Size`.
#[derive(Clone, Copy, Debug, PartialEq, Eq, PartialOrd, Ord)]
pub enum Attr {
    Place,
    Points,
    Size,
    Colour,
    Layer,
    Shown,
}

impl Attr {
    /// The index of the attribute, 0 to 5.
    pub fn index(self) -> usize
        ensures value { result ≡ attribute_index self }
        ensures bound { result < 6 }
    {
        match self {
            Attr::Place => 0,
            Attr::Points => 1,
            Attr::Size => 2,
            Attr::Colour => 3,
            Attr::Layer => 4,
            Attr::Shown => 5,
        }
    }
}

/// A value of an attribute.
#[derive(PartialEq, Eq, Drop)]
pub enum Value {
    Place(Point),
    Points(Points),
    /// A box's width and height, a circle's radius twice, or an ellipse's two radii.
    Size(u32, u32),
    Colour(Rgb),
    Layer(u16),
    Shown(bool),
}

/// The shape of an object, seen from its place.
#[derive(PartialEq, Eq, Drop)]
pub enum Form {
    /// A box of this width and height; its place is its least corner.
    Rect(u32, u32),
    /// A polygon of these points, seen from its place.
    Polygon(Points),
    /// A circle of this radius; its place is its centre.
    Circle(u32),
    /// An ellipse of these radii, to both sides and upwards and downwards; its place is its centre.
    Ellipse(u32, u32),
}

/// The attributes that a new object begins with. Objects of a higher layer are above.
#[derive(PartialEq, Eq, Drop)]
pub struct Start {
    pub form: Form,
    pub place: Point,
    pub colour: Rgb,
    pub layer: u16,
    pub shown: bool,
}

/// A change of the drawing.
#[derive(PartialEq, Eq, Drop)]
pub enum Change {
    /// Makes a new object, named by the operation's own id.
    Create(Start),
    /// Gives an attribute of the object this value, in the versions that hold all of the aim.
    Set {
        object: ObjectId,
        value: Value,
        aim: Ids,
    },
}

impl Change {
    /// The change that shows an object, or hides it, in the versions that hold all of the aim.
    pub fn set_shown(object: ObjectId, shown: bool, aim: Ids) -> Change
        ensures { result ≡ Set object (Shown shown) aim }
    {
        Change::Set {
            object,
            value: Value::Shown(shown),
            aim,
        }
    }
}

impl Value {
    /// The attribute of the value.
    pub fn attribute(&self) -> Attr
        ensures { result ≡ attribute_of self.now }
    {
        match self {
            Value::Place(_) => Attr::Place,
            Value::Points(_) => Attr::Points,
            Value::Size(_, _) => Attr::Size,
            Value::Colour(_) => Attr::Colour,
            Value::Layer(_) => Attr::Layer,
            Value::Shown(_) => Attr::Shown,
        }
    }
}
