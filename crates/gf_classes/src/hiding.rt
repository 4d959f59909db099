//! What operations say of whether their object shows.

ghost use Rattle.std.specs.Prelude.{◌≡◌};
ghost use Rattle.gf_classes.specs.Hiding.{hiding_site, shown_value, shown_by};

use gf_ops::{Change, Op, Value};

/// Whether the value shows, if it says that.
fn shown_value(value: &Value) -> Option<bool>
    ensures { result ≡ shown_value value.now }
{
    match value {
        Value::Shown(shown) => Some(*shown),
        Value::Place(_)
        | Value::Points(_)
        | Value::Size(_, _)
        | Value::Colour(_)
        | Value::Layer(_) => None,
    }
}

/// Whether the change shows its object, if it says that.
pub fn shown_by(change: &Change) -> Option<bool>
    ensures { result ≡ shown_by change.now }
{
    match change {
        Change::Create(start) => Some(start.shown),
        Change::Set { value, .. } => shown_value(value),
    }
}

/// The site of an operation that hides its object; else 0.
pub(crate) fn hiding_site(op: &Op) -> usize
    ensures { result ≡ hiding_site op.now }
{
    match shown_by(&op.change) {
        Some(false) => usize::from(op.id.site),
        Some(true) | None => 0,
    }
}
