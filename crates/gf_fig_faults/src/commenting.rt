//! A text in which comments stand for the lines of an object.

ghost use Rattle.std.specs.Prelude.{◌≡◌, ◌++◌, ◌-◌, IfOk, OnOk};
ghost use Rattle.gf_fig_faults.specs.Commenting.{begins_object, commented_out, has_code, is_colour};
ghost use Rattle.gf_fig_faults.specs.Commenting.{is_compound, is_compound_end, is_out, line_text};
ghost use Rattle.gf_fig_faults.specs.Commenting.{stage_behind};

use gf_base::OutOfMemory;
use gf_fig_tokens::cut_line;
use std::alloc::{AllocError, Global};

/// Where a line stands to the object that becomes comments.
#[derive(Clone, Copy, PartialEq, Eq)]
pub(crate) enum Stage {
    /// The first line of the object comes this many lines later.
    Before(u64),
    /// The line stands behind the first one of an object that is no compound.
    Within,
    /// The line stands behind the first one of a compound.
    Compound,
    /// The line stands behind the object.
    Behind,
}

/// The text with comments in place of the object that begins on this line, counted from 1.
pub(crate) fn comment_out(alloc: Global, text: &[u8], line: u64) -> Result<Vec<u8>, OutOfMemory>
    ensures { IfOk result (λ new. new.items ≡ commented_out line text.now) }
{
    let mut new = Vec::new(alloc);
    let mut left = text;
    let mut stage = Stage::Before(line.saturating_sub(1));
    while let Some((line, rest)) = cut_line(left) {
        push_line(&mut new, if is_out(stage, line) { b"#" } else { line })?;
        stage = stage_behind(stage, line);
        left = rest;
    }
    Ok(new)
}

/// Appends a line, and LF.
fn push_line(text: &mut Vec<u8>, line: &[u8]) -> Result<(), AllocError>
    ensures { OnOk result (text.new.items ≡ text.old.items ++ line_text line.now) }
{
    text.extend_from_slice(line)?;
    text.push(b'\n')?;
    Ok(())
}

/// Whether a comment stands for the line.
fn is_out(stage: Stage, line: &[u8]) -> bool
    ensures { result ≡ is_out stage line.now }
{
    match stage {
        Stage::Before(ahead) => ahead == 0,
        Stage::Within => !begins_object(line),
        Stage::Compound => is_compound_end(line),
        Stage::Behind => false,
    }
}

/// Where the next line stands.
fn stage_behind(stage: Stage, line: &[u8]) -> Stage
    ensures { result ≡ stage_behind stage line.now }
{
    match stage {
        Stage::Before(0) if is_compound(line) => Stage::Compound,
        Stage::Before(0) => Stage::Within,
        Stage::Before(ahead) => Stage::Before(ahead - 1),
        Stage::Within if begins_object(line) => Stage::Behind,
        Stage::Within => Stage::Within,
        Stage::Compound if is_compound_end(line) => Stage::Behind,
        Stage::Compound => Stage::Compound,
        Stage::Behind => Stage::Behind,
    }
}

/// Whether an object of FIG can begin on the line, or a compound end.
pub(crate) fn begins_object(line: &[u8]) -> bool
    ensures { result ≡ begins_object line.now }
{
    has_code(line) || is_compound_end(line)
}

/// Whether the line begins with the code of an object.
fn has_code(line: &[u8]) -> bool
    ensures { result ≡ has_code line.now }
{
    match line {
        [code, blank, ..] => b'0' <= *code && *code <= b'6' && *blank == b' ',
        _ => false,
    }
}

pub(crate) fn is_colour(line: &[u8]) -> bool
    ensures { result ≡ is_colour line.now }
{
    line.starts_with(b"0 ")
}

fn is_compound(line: &[u8]) -> bool
    ensures { result ≡ is_compound line.now }
{
    line.starts_with(b"6 ")
}

fn is_compound_end(line: &[u8]) -> bool
    ensures { result ≡ is_compound_end line.now }
{
    line.starts_with(b"-6")
}
