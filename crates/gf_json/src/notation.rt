//! How lines tell something of a history.

/// How lines tell something of a history.
#[derive(Clone, Copy, Debug, PartialEq, Eq)]
pub enum Notation {
    /// In words, for those who read them.
    Words,
    /// As JSON, for programs.
    Json,
}
