//! The lines of a text on which objects begin, and at which faults are reported.

ghost use Rattle.std.specs.Prelude.{◌≡◌, ◌-◌, ◌<◌, ◌^◌, ℕ, List, Ok, length, drop, slice_get, max};
ghost use Rattle.std.specs.Prelude.{IfOk, IsSome, MatchOption};
ghost use Rattle.gf_fig_tokens.specs.Layout.{Token, lines, object_tokens};
ghost use Rattle.gf_fig_tokens.specs.TokenLines.{token_lines};
ghost use Rattle.gf_fig_read.specs.FigGrammar.{Fails, nothing};
ghost use Rattle.gf_fig_read.specs.FaultLines.{BeginsOn, last_line, front_line, IsFaultLine};
ghost use Rattle.gf_fig_read.specs.Stepping.{Finds};

use crate::FigError;
use crate::objects::add_object;
use gf_base::OutOfMemory;
use gf_fig_tokens::{FigFault, Tokens, line_count, token_line};
use gf_figures::Drawing;
use gf_shape::Outline;
use std::alloc::Global;

/// The line at which a fault is reported. Each fault that a text has is reported at a line.
pub fn fault_line(alloc: Global, text: &[u8], error: FigError) -> Result<Option<u64>, OutOfMemory>
    ensures line { IfOk result (λ found. MatchOption found
        ((line : ℕ) → ¬ (IsFaultLine text.now error line)) (IsFaultLine text.now error)) }
    ensures reported { Fails text.now error.fault error.object
        → IfOk result (λ found. IsSome found) }
{
    match front_line(text, error.fault) {
        Some(line) => Ok(Some(line)),
        None => object_line(alloc, text, error.object),
    }
}

/// The line on which the object of this number begins, counted from 1 with the colours.
pub fn object_line(alloc: Global, text: &[u8], object: u64) -> Result<Option<u64>, OutOfMemory>
    ensures { IfOk result (λ found. MatchOption found
        ((line : ℕ) → ¬ (BeginsOn text.now object line)) (BeginsOn text.now object)) }
{
    let Ok(tokens) = Tokens::of_objects(text) else {
        return Ok(None);
    };
    match tokens_from(alloc, tokens, object)? {
        Some(left) => Ok(line_from(text, left)),
        None => Ok(None),
    }
}

/// The line at which a fault before the objects is reported.
fn front_line(text: &[u8], fault: FigFault) -> Option<u64>
    ensures { result ≡ front_line text.now fault }
{
    match fault {
        FigFault::Version => Some(1),
        FigFault::Header => Some(last_line(text)),
        FigFault::Resolution => Some(token_line(text, 0).unwrap_or(last_line(text))),
        _ => None,
    }
}

fn last_line(text: &[u8]) -> u64
    ensures { result ≡ last_line text.now }
{
    line_count(text).max(1)
}

/// The line of the token of the objects from which on `left` tokens are left.
fn line_from(text: &[u8], left: u64) -> Option<u64>
    ensures { (all : List Token) → object_tokens text.now ≡ Ok all
        → result ≡ slice_get (drop 2 (token_lines text.now)) (length all - left) }
{
    let Ok(tokens) = Tokens::of_objects(text) else {
        return None;
    };
    // Two tokens stand before those of the objects.
    token_line(text, 2 + count(tokens).saturating_sub(left))
}

fn count(tokens: Tokens<'_>) -> u64
    requires { length tokens < 2 ^ 64 }
    ensures { result ≡ length tokens.entry }
{
    let mut left = tokens;
    let mut count = 0u64;
    while let Some(_) = left.next_token() {
        count += 1;
    }
    count
}

/// How many tokens are left where the object of this number begins.
fn tokens_from(alloc: Global, tokens: Tokens<'_>, object: u64) -> Result<Option<u64>, OutOfMemory>
    requires { length tokens < 2 ^ 64 }
    ensures { IfOk result (λ found. Finds found tokens.entry object) }
{
    let mut drawing = Drawing::new(alloc);
    skip_objects(alloc, tokens, &mut drawing, object)
}

/// Reads the objects before the one of this number into a drawing that has none.
fn skip_objects(
    alloc: Global,
    tokens: Tokens<'_>,
    drawing: &mut Drawing<Outline>,
    object: u64,
) -> Result<Option<u64>, OutOfMemory>
    requires empty { drawing.old ≡ nothing }
    requires few { length tokens < 2 ^ 64 }
    ensures { IfOk result (λ found. Finds found tokens.entry object) }
{
    let Some(mut ahead) = object.checked_sub(1) else {
        return Ok(None);
    };
    let mut left = tokens;
    while let Some(code) = left.next_token() {
        if ahead == 0 {
            return Ok(Some(1 + count(left)));
        }
        ahead -= 1;
        match add_object(alloc, code, &mut left, drawing) {
            Ok(()) => {}
            Err(FigFault::OutOfMemory) => return Err(OutOfMemory),
            Err(_) => return Ok(None),
        }
    }
    Ok(None)
}
