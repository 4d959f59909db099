//! The names of the figures of a text.

ghost use Rattle.std.specs.Prelude.{◌≡◌, ◌≤◌, ◌++◌, IfOk, OnOk, None};
ghost use Rattle.std.specs.List.{fold};
ghost use Rattle.gf_fig_tokens.specs.Layout.{lines, words};
ghost use Rattle.gf_fig_read.specs.FigGrammar.{Reads};
ghost use Rattle.gf_fig_read.specs.Objects.{Drawn};
ghost use Rattle.gf_fig_named.specs.FigureNames.{begins, begun, behind_header, behind_lines};
ghost use Rattle.gf_fig_named.specs.FigureNames.{is_figure, left_behind, line_figures, next};
ghost use Rattle.gf_fig_named.specs.FigureNames.{points};
ghost use Rattle.gf_fig_named.specs.NamedFigures.{AreNamed};
ghost use Rattle.gf_fig_named.specs.NamesAbove.{are_none, is_silent, name_above};
ghost use Rattle.gf_fig_named.specs.Spelling.{spelt_number};
ghost use Rattle.gf_fig_tokens.specs.Forms.{whole};

use crate::Named;
use crate::above::name_above;
use crate::spelling::spelt_number;
use gf_base::OutOfMemory;
use gf_fig_tokens::{cut_line, cut_word, is_comment, whole};
use std::alloc::Global;

/// How many lines of a text stand behind its first one and before the tokens of its objects,
/// comments aside, and how many tokens the resolution has.
const HEADER_LINES: u32 = 7;

const RESOLUTION: u32 = 2;

/// How many tokens follow the first one of a colour, an ellipse, and a polyline up to its count.
const COLOUR: u32 = 2;

const ELLIPSE: u32 = 19;

const POLYLINE: u32 = 15;

/// The most points of a polyline.
const MOST_POINTS: u32 = 65_536;

/// Where a reading of tokens stands.
#[derive(Clone, Copy)]
struct Place {
    /// How many tokens of what has begun are to come.
    left: u32,
    /// Whether the last of these tokens is the count of points that follow.
    counts: bool,
}

/// What the comments directly above each figure name, in file order.
pub(crate) fn figure_names(alloc: Global, fig: &[u8]) -> Result<Vec<Option<Named>>, OutOfMemory>
    ensures { (d : Drawn) → Reads fig.now d
        → IfOk result (λ names. AreNamed fig.now d names.items) }
{
    let mut names = Vec::new(alloc);
    let mut place = Place {
        left: RESOLUTION,
        counts: false,
    };
    let mut rest = behind_header(fig);
    let mut above = rest;
    while let Some((line, after)) = cut_line(rest) {
        if !is_silent(line) {
            place = push_figures(alloc, &mut names, place, above, line)?;
            above = after;
        }
        rest = after;
    }
    Ok(names)
}

/// What follows the first line and those of the header.
fn behind_header(fig: &[u8]) -> &[u8]
    ensures { lines result.now ≡ behind_header (lines fig.now) }
{
    match cut_line(fig) {
        Some((_, rest)) => behind_lines(rest, HEADER_LINES),
        None => fig,
    }
}

/// What follows so many lines that are no comments.
fn behind_lines(text: &[u8], count: u32) -> &[u8]
    ensures { lines result.now ≡ behind_lines count (lines text.now) }
{
    let mut rest = text;
    let mut left = count;
    while let Some((line, after)) = cut_line(rest) {
        if left == 0 {
            return rest;
        }
        left = left_behind(left, line);
        rest = after;
    }
    rest
}

/// How many lines that are no comments are left behind this one, of so many.
fn left_behind(left: u32, line: &[u8]) -> u32
    requires { 1 ≤ left }
    ensures { result ≡ left_behind left line.now }
{
    if is_comment(line) { left } else { left - 1 }
}

/// Whether the line is a comment, or has no token.
pub(crate) fn is_silent(line: &[u8]) -> bool
    ensures { result ≡ is_silent line.now }
{
    is_comment(line) || has_no_word(line)
}

fn has_no_word(line: &[u8]) -> bool
    ensures { result ≡ are_none (words line.now) }
{
    match cut_word(line) {
        Some(_) => false,
        None => true,
    }
}

/// Adds the names of the figures that begin on a line, and says where the reading then stands. Only
/// what its first token begins is directly beneath the lines above.
fn push_figures(
    alloc: Global,
    names: &mut Vec<Option<Named>>,
    place: Place,
    above: &[u8],
    line: &[u8],
) -> Result<Place, OutOfMemory>
    ensures names { OnOk result (names.new.items ≡ names.old.items
        ++ line_figures place (name_above (lines above.now)) (words line.now)) }
    ensures place { IfOk result (λ p. p ≡ fold next place (words line.now)) }
{
    let Some((token, rest)) = cut_word(line) else {
        return Ok(place);
    };
    if begins(place, token) {
        names.push(name_above(alloc, above)?)?;
    }
    push_unnamed(names, next(place, token), rest)
}

/// The same where nothing above names a figure.
fn push_unnamed(
    names: &mut Vec<Option<Named>>,
    place: Place,
    line: &[u8],
) -> Result<Place, OutOfMemory>
    ensures names { OnOk result (names.new.items ≡ names.old.items
        ++ line_figures place None (words line.now)) }
    ensures place { IfOk result (λ p. p ≡ fold next place (words line.now)) }
{
    let mut place = place;
    let mut rest = line;
    while let Some((token, after)) = cut_word(rest) {
        if begins(place, token) {
            names.push(None)?;
        }
        place = next(place, token);
        rest = after;
    }
    Ok(place)
}

/// Whether a token begins a figure.
fn begins(place: Place, token: &[u8]) -> bool
    ensures { result ≡ begins place token.now }
{
    place.left == 0 && is_figure(token)
}

/// Whether a token begins a figure where it begins an object: an ellipse, or a polyline.
fn is_figure(token: &[u8]) -> bool
    ensures { result ≡ is_figure (whole token.now) }
{
    match whole(token) {
        Some(number) => number == 1 || number == 2,
        None => false,
    }
}

/// Where the reading stands behind a token.
fn next(place: Place, token: &[u8]) -> Place
    ensures { result ≡ next place token.now }
{
    if place.left == 0 {
        begun(token)
    } else if place.left == 1 && place.counts {
        points(token)
    } else {
        Place {
            left: place.left - 1,
            counts: place.counts,
        }
    }
}

/// Where the reading stands behind the first token of an object.
fn begun(token: &[u8]) -> Place
    ensures { result ≡ begun (whole token.now) }
{
    match whole(token) {
        Some(0) => Place {
            left: COLOUR,
            counts: false,
        },
        Some(1) => Place {
            left: ELLIPSE,
            counts: false,
        },
        Some(2) => Place {
            left: POLYLINE,
            counts: true,
        },
        _ => Place {
            left: 0,
            counts: false,
        },
    }
}

/// Where the reading stands behind a count of points.
fn points(token: &[u8]) -> Place
    ensures { result ≡ points (spelt_number 65536 token.now) }
{
    let left = match spelt_number(token, MOST_POINTS) {
        Some(count) => 2 * count,
        None => 0,
    };
    Place {
        left,
        counts: false,
    }
}
