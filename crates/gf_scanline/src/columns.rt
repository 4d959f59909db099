//! Columns of a row.

/// The columns from `from` to before `to`; none where `to` is not greater.
#[derive(Clone, Copy, Debug, PartialEq, Eq)]
pub struct Columns {
    pub from: usize,
    pub to: usize,
}
