//! The explanations of faults: why a line is no JSON, what is wrong with its keys and values, and
//! why an operation does not fit.

use gf_ops::OpId;
use std::fmt;

/// What is told where no reason was found.
const UNCLEAR: &str = "see the formats";

/// Why a line is no JSON.
#[derive(Clone, Copy)]
pub(crate) enum JsonReason {
    ByteOrderMark,
    Marker,
    NoUtf8,
    MoreBehind,
    BeginsWithin,
    DoesNotEnd,
    NoValue,
}

impl JsonReason {
    pub(crate) fn words(self) -> &'static str {
        match self {
            JsonReason::ByteOrderMark => "it begins with a byte order mark",
            JsonReason::Marker => {
                "a conflict marker of git: keep the lines of both sides, and delete the markers"
            }
            JsonReason::NoUtf8 => "this is no UTF-8",
            JsonReason::MoreBehind => {
                "more behind the first object: an LF is missing between two lines?"
            }
            JsonReason::BeginsWithin => {
                "a second object begins within the first: two files joined, of which the first \
                    lacks the end of its last line?"
            }
            JsonReason::DoesNotEnd => "one object a line: this one does not end here",
            JsonReason::NoValue => "this is no JSON value",
        }
    }
}

/// What is wrong with the keys and values of a line.
#[derive(Clone, Copy)]
pub(crate) enum KeyReason<'a> {
    NoObject,
    UnknownKey(&'a str),
    /// A key that is too long to be shown, or has another byte than a plain one.
    OddKey(usize),
    Missing(&'static str),
    Misplaced(&'a str),
    /// The key, and what has to stand there.
    OtherForm(&'static str, &'static str),
    Beyond(Beyond),
    /// A value is not within its limits, and no number was found that is not.
    Limits,
    /// A command where no site edits.
    Command,
    /// The site of the command, and the one that edits.
    OtherSite(i64, u8),
    Unclear,
}

impl fmt::Display for KeyReason<'_> {
    fn fmt<W: fmt::Write>(&self, f: &mut fmt::Formatter<W>) -> fmt::Result {
        let words = match self {
            KeyReason::UnknownKey(key) => return write!(f, "unknown key \"{key}\""),
            KeyReason::OddKey(length) => return write!(f, "unknown key of {length} bytes"),
            KeyReason::Missing(key) => return write!(f, "the key \"{key}\" is missing"),
            KeyReason::Misplaced(key) => {
                return write!(f, "the key \"{key}\" does not belong here");
            }
            KeyReason::OtherForm(key, form) => return write!(f, "\"{key}\" must be {form}"),
            KeyReason::Beyond(beyond) => return write!(f, "{beyond}"),
            KeyReason::OtherSite(site, editor) => {
                return write!(f, "site {site}, and this is a check for site {editor}");
            }
            KeyReason::NoObject => "this is no object",
            KeyReason::Limits => "a number is outside its limits",
            KeyReason::Command => "a command, which edit takes: check --site N explains it",
            KeyReason::Unclear => UNCLEAR,
        };
        write!(f, "{words}")
    }
}

/// A number that is not within its limits.
#[derive(Clone, Copy)]
pub(crate) struct Beyond {
    pub(crate) word: &'static str,
    pub(crate) part: &'static str,
    pub(crate) number: i64,
    pub(crate) side: Side,
    pub(crate) limit: i64,
}

impl fmt::Display for Beyond {
    fn fmt<W: fmt::Write>(&self, f: &mut fmt::Formatter<W>) -> fmt::Result {
        let side = match self.side {
            Side::Below => "below",
            Side::Above => "above",
        };
        let (word, part, number, limit) = (self.word, self.part, self.number, self.limit);
        write!(f, "{word}{part} {number} is {side} {limit}")
    }
}

/// On which side of its limits a number is.
#[derive(Clone, Copy)]
pub(crate) enum Side {
    Below,
    Above,
}

/// Why an operation does not fit, or clashes with another one.
#[derive(Clone, Copy)]
pub(crate) enum OperationReason {
    /// The id, the line of the other operation, and what differs first.
    Clash(OpId, u64, &'static str),
    OwnCount(u32, u32),
    FallsBehind(u32, u8, OpId, u32),
    NotMade(OpId),
    WrongKind(OpId, &'static str, &'static str),
    AimNotCounted(OpId),
    AimElsewhere(OpId),
    AimLacks(OpId),
    AimConflicts,
    Unclear,
}

impl fmt::Display for OperationReason {
    fn fmt<W: fmt::Write>(&self, f: &mut fmt::Formatter<W>) -> fmt::Result {
        match self {
            OperationReason::Clash(id, line, what) => {
                write!(f, "{id} is in line {line} too, with another {what}")
            }
            OperationReason::OwnCount(count, before) => {
                write!(
                    f,
                    "its past counts {count} of its own site, and must count {before}"
                )
            }
            OperationReason::FallsBehind(count, site, id, had) => {
                write!(
                    f,
                    "its past counts {count} of site {site}, and {id}, which it counts, had {had}"
                )
            }
            OperationReason::NotMade(id) => {
                write!(
                    f,
                    "it changes {id}, which is no object that its past counts"
                )
            }
            OperationReason::WrongKind(id, kind, words) => write!(f, "{id} is {kind}: {words}"),
            OperationReason::AimNotCounted(id) => {
                write!(f, "its aim has {id}, which its past does not count")
            }
            OperationReason::AimElsewhere(id) => {
                write!(f, "its aim has {id}, which concerns another object")
            }
            OperationReason::AimLacks(id) => {
                write!(
                    f,
                    "its aim has {id}, and lacks an operation that {id} is aimed at"
                )
            }
            OperationReason::AimConflicts => {
                write!(f, "its aim has two operations that conflict")
            }
            OperationReason::Unclear => write!(f, "{UNCLEAR}"),
        }
    }
}
