//! Figures of a drawing.

/// A filled shape, by the number of its colour. What has the smaller depth lies in front.
#[derive(Drop)]
pub struct Figure<S> {
    pub shape: S,
    pub colour: u16,
    pub depth: u16,
}
