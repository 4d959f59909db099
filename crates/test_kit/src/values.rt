//! Points and colours.

ghost use Rattle.std.specs.Prelude.{◌≡◌};

use gf_plane::{Point, Rgb};

pub const RED: Rgb = Rgb { r: 255, g: 0, b: 0 };

pub const GREEN: Rgb = Rgb { r: 0, g: 255, b: 0 };

pub const BLUE: Rgb = Rgb { r: 0, g: 0, b: 255 };

pub fn at(x: i32, y: i32) -> Point
    ensures { result ≡ record { x = x; y = y } }
{
    Point { x, y }
}
