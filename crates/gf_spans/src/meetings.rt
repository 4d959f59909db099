//! Meetings: where lines meet a row, and the spans that they enclose there.

ghost use Rattle.std.specs.Prelude.{◌≡◌, ◌∷◌, ◌++◌, [], ◌%◌, false, int_le, length, IfOk, OnOk};
ghost use Rattle.std.specs.Prelude.{List, None, Option};
ghost use Rattle.std.specs.List.{list_any};
ghost use Rattle.gf_spans.specs.declared.crossing.Crossing.{Crossing};
ghost use Rattle.gf_spans.specs.declared.span.Span.{Span};
ghost use Rattle.gf_spans.specs.Joining.{IsJoined};
ghost use Rattle.gf_spans.specs.JoiningParts.{meets, merged, merged_all, pairs_from, span_between};
ghost use Rattle.gf_spans.specs.JoiningParts.{spans_between, widened};
ghost use Rattle.gf_spans.specs.Spans.{is_empty};

use crate::{Crossing, Span};
use std::alloc::{AllocError, Global};

/// Where lines meet a row: each in a crossing, where it passes, or in a contact, where it only
/// touches.
#[derive(Drop)]
pub struct Meetings {
    pub crossings: Vec<Crossing>,
    pub contacts: Vec<Span>,
}

impl Meetings {
    /// No crossings and no contacts. It takes no memory yet.
    pub fn new(alloc: Global) -> Meetings
        ensures crossings { result.crossings.items ≡ [] }
        ensures contacts { result.contacts.items ≡ [] }
    {
        Meetings {
            crossings: Vec::new(alloc),
            contacts: Vec::new(alloc),
        }
    }

    /// Drops all crossings and contacts, and keeps the memory.
    pub fn clear(&mut self)
        ensures crossings { self.new.crossings.items ≡ [] }
        ensures contacts { self.new.contacts.items ≡ [] }
    {
        self.crossings.clear();
        self.contacts.clear();
    }

    /// Makes `spans` what the meetings enclose. It sorts them in place, and adds to the contacts.
    /// It takes memory for the contacts and for `spans` alone.
    pub fn join_into(&mut self, spans: &mut Vec<Span>) -> Result<(), AllocError>
        requires even { length self.now.crossings.items % 2 ≡ 0 }
        requires full { list_any is_empty self.now.contacts.items ≡ false }
        ensures { OnOk result (IsJoined self.old.crossings.items self.old.contacts.items
            spans.new.items) }
    {
        self.crossings.sort_unstable();
        pair_up(&self.crossings, &mut self.contacts)?;
        self.contacts.sort_unstable();
        spans.clear();
        merge(&self.contacts, spans)?;
        Ok(())
    }
}

/// The spans between the first place and the second, the third and the fourth, and so on.
fn pair_up(places: &[Crossing], found: &mut Vec<Span>) -> Result<(), AllocError>
    ensures { OnOk result (found.new.items ≡ found.old.items ++ pairs_from None places.now) }
{
    let mut before = None;
    for place in places {
        before = pair_one(before, *place, found)?;
    }
    Ok(())
}

/// Takes one more place. With a place that waits for it, the two make a span; else it waits itself.
fn pair_one(
    before: Option<Crossing>,
    place: Crossing,
    found: &mut Vec<Span>,
) -> Result<Option<Crossing>, AllocError>
    ensures { IfOk result (λ after. (ks : List Crossing)
        → found.new.items ++ pairs_from after ks
        ≡ found.old.items ++ pairs_from before (place ∷ ks)) }
{
    match before {
        None => Ok(Some(place)),
        Some(first) => {
            push_between(first, place, found)?;
            Ok(None)
        }
    }
}

fn push_between(k: Crossing, l: Crossing, found: &mut Vec<Span>) -> Result<(), AllocError>
    ensures { OnOk result (found.new.items ≡ found.old.items ++ spans_between k l) }
{
    if let Some(span) = span_between(k, l) {
        found.push(span)?;
    }
    Ok(())
}

/// The numbers from a place to another, where there are any.
#[tactic(auto, using(std::proofs::lemmas::Int::ints))]
fn span_between(k: Crossing, l: Crossing) -> Option<Span>
    ensures { result ≡ span_between k l }
{
    let start = k.start();
    if start <= l.floor as i64 {
        Some(Span {
            first: start as i32,
            last: l.floor,
        })
    } else {
        None
    }
}

/// Makes one of spans that overlap or touch, where each begins no earlier than the one before it.
fn merge(found: &[Span], spans: &mut Vec<Span>) -> Result<(), AllocError>
    ensures { OnOk result (spans.new.items ≡ spans.old.items ++ merged_all found.now) }
{
    if found.is_empty() {
        return Ok(());
    }
    merge_from(found[0], &found[1..], spans)
}

fn merge_from(first: Span, rest: &[Span], spans: &mut Vec<Span>) -> Result<(), AllocError>
    ensures { OnOk result (spans.new.items ≡ spans.old.items ++ merged first rest.now) }
{
    let mut current = first;
    for span in rest {
        current = merge_one(current, *span, spans)?;
    }
    spans.push(current)?;
    Ok(())
}

/// Takes one more span, which widens the one before it or stands apart from it.
fn merge_one(current: Span, span: Span, spans: &mut Vec<Span>) -> Result<Span, AllocError>
    ensures { IfOk result (λ last. (ss : List Span)
        → spans.new.items ++ merged last ss ≡ spans.old.items ++ merged current (span ∷ ss)) }
{
    if meets(current, span) {
        return Ok(widened(current, span));
    }
    spans.push(current)?;
    Ok(span)
}

/// Whether a span overlaps an earlier one or begins right after it.
#[tactic(auto, using(std::proofs::lemmas::Int::ints))]
fn meets(current: Span, span: Span) -> bool
    ensures { result ≡ meets current span }
{
    span.first as i64 <= current.last as i64 + 1
}

/// A span, widened to the end of another one.
fn widened(current: Span, span: Span) -> Span
    ensures { result ≡ widened current span }
{
    Span {
        first: current.first,
        last: current.last.max(span.last),
    }
}
