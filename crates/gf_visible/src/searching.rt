//! The choices that hold, depth first.

ghost use Rattle.std.specs.Prelude.{◌≡◌, ◌<◌, ◌≤◌, ◌+◌, ◌-◌, ◌++◌, length, drop, IfOk, OnOk, take};
ghost use Rattle.gf_visible.specs.Choices.{all_hold, answers};
ghost use Rattle.gf_visible.specs.PendingChoices.{all_answers, weight, weight_of};

use crate::step::ChoiceStep;
use gf_base::OutOfMemory;
use gf_maximal::Numbers;
use std::alloc::Global;
use std::marker::Model;

/// A choice that is still to be followed: the index of its next step, and what is possible.
#[derive(Drop)]
struct Choice {
    at: usize,
    possible: Numbers,
}

impl Model for Choice {
    ghost use Rattle.gf_visible.specs.PendingChoices.{ChoiceState};

    ghost Value = { ChoiceState };

    ghost view = { λ s. record { at = s.at; possible = s.possible } };
}

/// Whether each step may hold with what is possible.
fn all_hold(steps: &[ChoiceStep], possible: &Numbers) -> bool
    ensures { result ≡ all_hold steps.now possible.now }
{
    steps.iter().all(|step| step.holds(possible))
}

/// Puts a choice behind those that are left, if it may hold.
fn leave(steps: &[ChoiceStep], choice: Choice, left: &mut Vec<Choice>) -> Result<(), OutOfMemory>
    ensures leads { OnOk result (all_answers steps.now left.new.items
        ≡ answers steps.now (drop choice.at steps.now) choice.possible
        ++ all_answers steps.now left.old.items) }
    ensures lighter { OnOk result (weight (length steps.now) left.new.items
        ≤ weight_of (length steps.now) choice.at + weight (length steps.now) left.old.items) }
{
    if all_hold(steps, &choice.possible) {
        left.push(choice)?;
    }
    Ok(())
}

/// Follows a choice to its end, and adds it if it holds. Where a step may be taken both ways, the
/// second way is a choice that is left.
fn follow(
    alloc: Global,
    steps: &[ChoiceStep],
    next: Choice,
    left: &mut Vec<Choice>,
    found: &mut Vec<Numbers>,
) -> Result<(), OutOfMemory>
    ensures leads { OnOk result (found.new.items ++ all_answers steps.now left.new.items
        ≡ found.old.items ++ (answers steps.now (drop next.at steps.now) next.possible
        ++ all_answers steps.now left.old.items)) }
    ensures one { OnOk result (length found.new.items ≤ length found.old.items + 1) }
    ensures lighter { OnOk result (weight (length steps.now) left.new.items
        < weight_of (length steps.now) next.at + weight (length steps.now) left.old.items) }
{
    let Choice { at, mut possible } = next;
    if !all_hold(steps, &possible) {
        return Ok(());
    }
    for index in at..steps.len() {
        let step = &steps[index];
        if !step.is_among(&possible) {
            continue;
        }
        let first = step.first(alloc, &possible)?;
        let second = step.second(alloc, &possible)?;
        let other = Choice {
            at: index + 1,
            possible: second,
        };
        leave(steps, other, left)?;
        if !all_hold(steps, &first) {
            return Ok(());
        }
        possible = first;
    }
    found.push(possible)?;
    Ok(())
}

/// The choices that hold, but no more than `limit`.
///
/// Each position that may be taken both ways leaves a choice: its step, and a set of positions.
pub(crate) fn search(
    alloc: Global,
    steps: &[ChoiceStep],
    possible: Numbers,
    limit: usize,
) -> Result<Vec<Numbers>, OutOfMemory>
    requires { 0 < limit }
    ensures { IfOk result (λ found. found.items
        ≡ take limit (answers steps.now steps.now possible)) }
{
    let mut found = Vec::new(alloc);
    let mut left = Vec::new(alloc);
    left.push(Choice { at: 0, possible })?;
    while let Some(next) = left.pop() {
        follow(alloc, steps, next, &mut left, &mut found)?;
        if found.len() >= limit {
            return Ok(found);
        }
    }
    Ok(found)
}
