//! What is asked of a service.

ghost use Rattle.gf_ops.specs.OperationOrder.{IsSite};

use gf_json::Notation;
use gf_take_run::TakeRequest;

/// What is asked of a service.
#[derive(Drop)]
pub enum Request {
    /// That it takes operation lines.
    Lines(Vec<u8>),
    /// That a site takes operations of a FIG text.
    Take(TakeText),
    /// The named text of the drawing.
    Named,
    /// The status.
    Status(Notation),
}

/// A FIG text, and which site takes operations of it.
#[derive(Drop)]
pub struct TakeText {
    pub request: TakeRequest,
    pub fig: Vec<u8>,
    ghost site: { IsSite request.site },
}
