//! Whether something of a history is open.

/// Whether something waits or is open.
#[derive(Clone, Copy, Debug, PartialEq, Eq)]
pub enum State {
    /// Nothing waits, and no attribute differs among the visible versions of an object. No two
    /// hidings of a hidden object crossed, and no hidden version was changed by an operation that
    /// did not know the hiding. At most 1,000 versions are visible in all.
    Clean,
    /// Something waits, differs or crossed, or more than 1,000 versions are visible.
    Open,
}
