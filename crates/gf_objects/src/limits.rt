//! Whether an object can begin so, within the limits of operations.

ghost use Rattle.std.specs.Prelude.{◌≡◌};
ghost use Rattle.gf_objects.specs.StartFaults.{form_fault, points_fault, start_fault, unless};

use crate::FigureFault;
use gf_ops::{Form, Start, are_near, is_near, is_size};
use gf_shape::Point;

/// The first limit of operations that the beginning of an object breaks: of its place, then of its
/// form.
pub fn start_fault(start: &Start) -> Option<FigureFault>
    ensures { result ≡ start_fault start.now }
{
    if is_near(start.place) {
        form_fault(&start.form)
    } else {
        Some(FigureFault::Place)
    }
}

/// The first limit that a form breaks.
fn form_fault(form: &Form) -> Option<FigureFault>
    ensures { result ≡ form_fault form.now }
{
    match form {
        Form::Rect(width, height) => {
            unless(is_size(*width) && is_size(*height), FigureFault::Size)
        }
        Form::Circle(radius) => unless(is_size(*radius), FigureFault::Size),
        Form::Ellipse(rx, ry) => unless(is_size(*rx) && is_size(*ry), FigureFault::Size),
        Form::Polygon(points) => points_fault(points.as_slice()),
    }
}

/// The first limit that the points of a polygon break.
fn points_fault(points: &[Point]) -> Option<FigureFault>
    ensures { result ≡ points_fault points.now }
{
    if points.len() <= 64 {
        unless(are_near(points), FigureFault::Point)
    } else {
        Some(FigureFault::Points)
    }
}

/// A fault, unless a test holds.
fn unless(holds: bool, fault: FigureFault) -> Option<FigureFault>
    ensures { result ≡ unless holds fault }
{
    if holds { None } else { Some(fault) }
}
