//! Why a command of a site was refused.

/// Why a command was refused, in the order of the checks. A change is refused for the first five,
/// as [`AuthorFault`](crate::AuthorFault) says; to wait for an operation, for Range and the last
/// two.
#[derive(Clone, Copy, Debug, PartialEq, Eq)]
pub enum Cause {
    Exhausted,
    /// The change breaks a limit, or the id that was waited for does.
    Range,
    NoObject,
    WrongKind,
    BadAim,
    /// The site waited for an operation of its own.
    OwnId,
    /// Every peer ended, and the operation that was waited for had not come.
    NeverComes,
}
