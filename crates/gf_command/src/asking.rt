//! What the words of the command line ask for.

ghost use Rattle.std.specs.Prelude.{◌≡◌, ◌⊎◌, Some, codes, false, is_some, map, pos};
ghost use Rattle.std.specs.Prelude.{IfErr, IfOk, IfSome, OnOk, option_map, string_bytes};
ghost use Rattle.clap.specs.Words.{HasKind, fault_of, found_of, rows_of};
ghost use Rattle.clap.specs.Words.{subcommand_of, subcommand_rows_of};
ghost use Rattle.gf_command.specs.CommandLine as line;
ghost use Rattle.gf_command.specs.Asking.{AreTaken, AsksObject, AsksQuery, HasNatural};
ghost use Rattle.gf_command.specs.Asking.{HasNaturalOr, IsInspection, asked_notation};
ghost use Rattle.gf_command.specs.Asking.{HasNaturalOrNone, HasWholeOr, HasWorkers};
ghost use Rattle.gf_command.specs.Asking.{IsNaturalOrNone, IsTake};
ghost use Rattle.gf_command.specs.Asking.{IsAsked, IsCanvas, IsChecked, IsEditorOf};
ghost use Rattle.gf_command.specs.Asking.{IsEditorOrNone, IsExtent, IsFig, IsFrame, IsInspected};
ghost use Rattle.gf_command.specs.Asking.{IsNaturalOr, IsWholeOr, IsWindow, AsksFor, has_flag};
ghost use Rattle.gf_command.specs.Asking.{is_given, is_placed, is_placed_fit, is_true};

use crate::describing::program;
use crate::querying::{spelt_id, spelt_point};
use crate::runs::{Asked, Canvas, Editor, Mistake, QueryFault, Run, Workers};
use clap::{ArgMatches, Error};
use gf_fit::Frame;
use gf_json::Notation;
use gf_ops::ObjectId;
use gf_scanline::Window;
use gf_studio::{Extent, Inspection, Query};
use std::alloc::Global;

/// Reads the words, the first of which is the program's name. The answer is none where an option
/// that clap took is outside its limits, for which clap's own checks leave no room.
pub fn parse(alloc: Global, words: &[String]) -> Result<Option<Asked>, Error>
    ensures asked { IfOk result (λ asked. IfSome asked (AsksFor (map string_bytes words.now))) }
    ensures fails { IfErr result (HasKind (fault_of line.program (map string_bytes words.now))) }
{
    let matches = matches_of(alloc, words)?;
    Ok(read_matches(&matches))
}

/// What clap reads of the words.
fn matches_of<'a>(alloc: Global, words: &'a [String]) -> Result<ArgMatches<'a>, Error>
    ensures taken { OnOk result (AreTaken (map string_bytes words.now)) }
    ensures read { IfOk result (λ m. subcommand_rows_of m
        ≡ subcommand_of line.program (map string_bytes words.now)) }
    ensures fails { IfErr result (HasKind (fault_of line.program (map string_bytes words.now))) }
{
    program(alloc)?.try_get_matches_from(words)
}

fn read_matches(matches: &ArgMatches<'_>) -> Option<Asked>
    ensures { IfSome result (IsAsked (subcommand_rows_of matches.now)) }
{
    let (name, matches) = matches.subcommand()?;
    if is_placed_fit(matches) {
        return Some(Asked::Mistake(Mistake::PlacedFit));
    }
    match name {
        "fig" => Some(Asked::Run(fig_of(matches)?)),
        "paint" => Some(Asked::Run(Run::Paint(canvas_of(matches)?))),
        "repaint" => Some(Asked::Run(Run::Repaint(canvas_of(matches)?))),
        "inspect" => match inspection_of(matches) {
            Ok(inspection) => Some(Asked::Run(Run::Inspect {
                inspection,
                workers: workers_of(matches)?,
            })),
            Err(fault) => Some(Asked::Mistake(Mistake::Query(fault))),
        },
        "import" => Some(Asked::Run(Run::Import(editor_of(matches)?))),
        "edit" => Some(Asked::Run(Run::Edit(editor_of(matches)?))),
        "take" => Some(Asked::Run(take_of(matches)?)),
        "status" => Some(Asked::Run(Run::Status {
            check: has_flag(matches, "check"),
            notation: notation_of(matches),
            workers: workers_of(matches)?,
        })),
        "check" => Some(Asked::Run(Run::Check(checked_of(matches)?))),
        "session" => Some(Asked::Run(Run::Session(byte(matches, "sites")?))),
        "serve" => Some(Asked::Run(Run::Serve(workers_of(matches)?))),
        _ => None,
    }
}

/// Which FIG text is asked for, and the workers that read its lines.
fn fig_of(matches: &ArgMatches<'_>) -> Option<Run>
    ensures { IfSome result (IsFig (rows_of (found_of matches.now))) }
{
    let workers = workers_of(matches)?;
    if has_flag(matches, "named") {
        Some(Run::NamedFig(workers))
    } else {
        Some(Run::Fig(workers))
    }
}

/// What a take asks for.
fn take_of(matches: &ArgMatches<'_>) -> Option<Run>
    ensures { IfSome result (IsTake (rows_of (found_of matches.now))) }
{
    let editor = editor_of(matches)?;
    let after = after_of(matches)?;
    let workers = workers_of(matches)?;
    Some(Run::Take {
        editor,
        after,
        named: has_flag(matches, "named"),
        workers,
    })
}

/// The number of operations behind which a take makes nothing, where one is given.
fn after_of(matches: &ArgMatches<'_>) -> Option<Option<u32>>
    ensures { IfSome result (HasNaturalOrNone (rows_of (found_of matches.now)) (codes "after")) }
{
    natural_or_none(matches.get_str("after"))
}

/// The number of a text, of 32 bits; none where there is no text.
fn natural_or_none(text: Option<&str>) -> Option<Option<u32>>
    ensures { IfSome result (IsNaturalOrNone (option_map (λ t. t.now) text.entry)) }
{
    match text {
        None => Some(None),
        Some(text) => Some(Some(text.parse().ok()?)),
    }
}

/// What an inspection asks for.
fn inspection_of(matches: &ArgMatches<'_>) -> Result<Inspection, QueryFault>
    ensures { IsInspection (rows_of (found_of matches.now)) result }
{
    let query = query_of(matches)?;
    let notation = notation_of(matches);
    Ok(Inspection { query, notation })
}

/// Whether lines are to be JSON.
fn notation_of(matches: &ArgMatches<'_>) -> Notation
    ensures { result ≡ asked_notation (rows_of (found_of matches.now)) }
{
    if has_flag(matches, "json") {
        Notation::Json
    } else {
        Notation::Words
    }
}

/// The query that one of the two options asks for.
fn query_of(matches: &ArgMatches<'_>) -> Result<Query, QueryFault>
    ensures { IsInspected (rows_of (found_of matches.now)) result }
{
    asked_of(matches.get_str("object"), matches.get_str("at"))
}

/// The query that one of two texts asks for.
fn asked_of(object: Option<&str>, at: Option<&str>) -> Result<Query, QueryFault>
    ensures { AsksQuery (option_map (λ t. t.now) object.entry)
        (option_map (λ t. t.now) at.entry) result }
{
    match (object, at) {
        (Some(text), None) => objects_asked(text),
        (None, Some(text)) => match spelt_point(text) {
            Some(point) => Ok(Query::At(point)),
            None => Err(QueryFault::Unreadable),
        },
        (None, None) | (Some(_), Some(_)) => Err(QueryFault::NotOne),
    }
}

/// The query that the text of objects asks for.
fn objects_asked(text: &str) -> Result<Query, QueryFault>
    ensures { AsksObject text.now result }
{
    if text == "all" {
        return Ok(Query::All);
    }
    if text == "several" {
        return Ok(Query::Several);
    }
    match spelt_id(text) {
        Some(id) => Ok(Query::Object(ObjectId(id))),
        None => Err(QueryFault::Unreadable),
    }
}

fn editor_of(matches: &ArgMatches<'_>) -> Option<Editor>
    ensures { IfSome result (λ editor. HasNatural (rows_of (found_of matches.now)) (codes "site")
        editor.site) }
{
    let site = byte(matches, "site")?;
    if site < 1 || 8 < site {
        return None;
    }
    Some(Editor { site })
}

/// The site whose command lines a check reads too, where one is given.
fn checked_of(matches: &ArgMatches<'_>) -> Option<Option<Editor>>
    ensures { IfSome result (IsChecked (rows_of (found_of matches.now))) }
{
    editor_or_none(matches.get_str("site"))
}

/// The site of a text; none where there is no text.
fn editor_or_none(text: Option<&str>) -> Option<Option<Editor>>
    ensures { IfSome result (IsEditorOrNone (option_map (λ t. t.now) text.entry)) }
{
    match text {
        None => Some(None),
        Some(text) => editor_or_fault(text.parse().ok()?),
    }
}

/// The site of this number, which is in range where there is an answer.
fn editor_or_fault(site: u8) -> Option<Option<Editor>>
    ensures { IfSome result (λ editor. IsEditorOf site editor) }
{
    if site < 1 || 8 < site {
        return None;
    }
    Some(Some(Editor { site }))
}

/// Whether a flag is given.
fn has_flag(matches: &ArgMatches<'_>, name: &str) -> bool
    ensures { result ≡ has_flag name.now (rows_of (found_of matches.now)) }
{
    is_true(matches.get_str(name))
}

/// Whether the text is that of a flag that is given.
fn is_true(text: Option<&str>) -> bool
    ensures { result ≡ is_true (option_map (λ t. t.now) text.entry) }
{
    match text {
        Some(text) => text == "true",
        None => false,
    }
}

/// Whether the window that is to fit is placed too.
fn is_placed_fit(matches: &ArgMatches<'_>) -> bool
    ensures { result ≡ is_placed_fit (rows_of (found_of matches.now)) }
{
    has_flag(matches, "fit") && is_placed(matches)
}

/// Whether an option is given that places a window.
fn is_placed(matches: &ArgMatches<'_>) -> bool
    ensures { result ≡ is_placed (rows_of (found_of matches.now)) }
{
    is_given(matches, "x") || is_given(matches, "y") || is_given(matches, "step")
}

/// Whether an option has a text.
fn is_given(matches: &ArgMatches<'_>, name: &str) -> bool
    ensures { result ≡ is_given name.now (rows_of (found_of matches.now)) }
{
    has_text(matches.get_str(name))
}

/// Whether there is a text.
fn has_text(text: Option<&str>) -> bool
    ensures { result ≡ is_some (option_map (λ t. t.now) text.entry) }
{
    text.is_some()
}

fn canvas_of(matches: &ArgMatches<'_>) -> Option<Canvas>
    requires { is_placed_fit (rows_of (found_of matches.now)) ≡ false }
    ensures { IfSome result (IsCanvas (rows_of (found_of matches.now))) }
{
    let extent = extent_of(matches)?;
    let workers = workers_of(matches)?;
    Some(Canvas { extent, workers })
}

fn workers_of(matches: &ArgMatches<'_>) -> Option<Workers>
    ensures { IfSome result (HasWorkers (rows_of (found_of matches.now))) }
{
    let count = byte(matches, "workers")?;
    if count < 1 || 16 < count {
        return None;
    }
    Some(Workers { count })
}

fn extent_of(matches: &ArgMatches<'_>) -> Option<Extent>
    ensures { IfSome result (IsExtent (rows_of (found_of matches.now))) }
{
    if has_flag(matches, "fit") {
        Some(Extent::Fitted(frame_of(matches)?))
    } else {
        Some(Extent::Window(window_of(matches)?))
    }
}

fn frame_of(matches: &ArgMatches<'_>) -> Option<Frame>
    ensures { IfSome result (IsFrame (rows_of (found_of matches.now))) }
{
    let width = count(matches, "width")?;
    let height = count(matches, "height")?;
    Frame::new(width, height).ok()
}

fn window_of(matches: &ArgMatches<'_>) -> Option<Window>
    ensures { IfSome result (IsWindow (rows_of (found_of matches.now))) }
{
    let x = coordinate(matches, "x")?;
    let y = coordinate(matches, "y")?;
    let step = step(matches)?;
    let width = count(matches, "width")?;
    let height = count(matches, "height")?;
    Window::new(x, y, step, width, height).ok()
}

/// The number of an option, of 8 bits.
fn byte(matches: &ArgMatches<'_>, name: &str) -> Option<u8>
    ensures { IfSome result (HasNatural (rows_of (found_of matches.now)) name.now) }
{
    matches.get_one(name)
}

/// The number of an option, of 32 bits.
fn count(matches: &ArgMatches<'_>, name: &str) -> Option<u32>
    ensures { IfSome result (HasNatural (rows_of (found_of matches.now)) name.now) }
{
    matches.get_one(name)
}

/// The number of an option, of 32 bits with sign; 0 where it is not given.
fn coordinate(matches: &ArgMatches<'_>, name: &str) -> Option<i32>
    ensures { IfSome result (HasWholeOr (pos 0) (rows_of (found_of matches.now)) name.now) }
{
    whole_or_zero(matches.get_str(name))
}

/// The number of a text, of 32 bits with sign; 0 where there is none.
fn whole_or_zero(text: Option<&str>) -> Option<i32>
    ensures { IfSome result (IsWholeOr (pos 0) (option_map (λ t. t.now) text.entry)) }
{
    match text {
        None => Some(0),
        Some(text) => text.parse().ok(),
    }
}

/// The step of a window; 1 where it is not given.
fn step(matches: &ArgMatches<'_>) -> Option<u32>
    ensures { IfSome result (HasNaturalOr 1 (rows_of (found_of matches.now)) (codes "step")) }
{
    natural_or_one(matches.get_str("step"))
}

/// The number of a text, of 32 bits; 1 where there is none.
fn natural_or_one(text: Option<&str>) -> Option<u32>
    ensures { IfSome result (IsNaturalOr 1 (option_map (λ t. t.now) text.entry)) }
{
    match text {
        None => Some(1),
        Some(text) => text.parse().ok(),
    }
}
