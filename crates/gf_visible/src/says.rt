//! What the operations of each class say of whether their object shows.

ghost use Rattle.std.specs.Prelude.{◌≡◌, IfOk, Some, map, option_copied, slice_get};
ghost use Rattle.gf_visible.specs.ClassSays.{hides, is_after, knows_some, known_in, no_clock};
ghost use Rattle.gf_visible.specs.ClassSays.{either_clock, said, says_of, silent, with_op};
ghost use Rattle.gf_visible.specs.ClassSays.{with_said};

use gf_base::OutOfMemory;
use gf_classes::shown_by;
use gf_maximal::Numbers;
use gf_ops::{Clock, Op};
use std::alloc::Global;

/// What the operations of a class say. Those that hide are of one site.
#[derive(Clone, Copy)]
pub(crate) struct Says {
    /// The site of those that hide.
    pub site: u8,
    /// The number of the last one that hides; 0 where none does.
    pub last: u32,
    /// What those that show know.
    pub known: Clock,
}

/// The clock that knows no operation.
fn no_clock() -> Clock
    ensures { result ≡ no_clock }
{
    Clock([0; 8])
}

/// Nothing is said.
fn silent() -> Says
    ensures { result ≡ silent }
{
    Says {
        site: 0,
        last: 0,
        known: no_clock(),
    }
}

/// What either clock knows.
fn either_clock(clock: Clock, other: Clock) -> Clock
    ensures { result ≡ either_clock clock other }
{
    Clock([
        clock.0[0].max(other.0[0]),
        clock.0[1].max(other.0[1]),
        clock.0[2].max(other.0[2]),
        clock.0[3].max(other.0[3]),
        clock.0[4].max(other.0[4]),
        clock.0[5].max(other.0[5]),
        clock.0[6].max(other.0[6]),
        clock.0[7].max(other.0[7]),
    ])
}

/// What is said, with what one more operation says.
fn with_said(says: Says, op: &Op) -> Says
    ensures { result ≡ with_op says (Some op.now) }
{
    match shown_by(&op.change) {
        Some(true) => Says {
            site: says.site,
            last: says.last,
            known: either_clock(says.known, op.past),
        },
        Some(false) => Says {
            site: op.id.site,
            last: says.last.max(op.id.seq),
            known: says.known,
        },
        None => says,
    }
}

/// What is said, with what an operation says, if it is there.
fn with_op(says: Says, op: Option<&Op>) -> Says
    ensures { result ≡ with_op says (option_copied op.entry) }
{
    match op {
        Some(op) => with_said(says, op),
        None => says,
    }
}

/// What is said, with what the operation at a position says, if there is one.
fn with_op_at(says: Says, ops: &[Op], position: usize) -> Says
    ensures { result ≡ with_op says (slice_get ops.now position) }
{
    with_op(says, ops.get(position))
}

/// What the operations at these positions say.
fn says_of(ops: &[Op], positions: &[usize]) -> Says
    ensures { result ≡ says_of ops.now positions.now }
{
    let mut says = silent();
    for position in positions {
        says = with_op_at(says, ops, *position);
    }
    says
}

/// What the operations of each class say.
pub(crate) fn all_says(
    alloc: Global,
    ops: &[Op],
    members: &[Numbers],
) -> Result<Vec<Says>, OutOfMemory>
    ensures { IfOk result (λ all. all.items ≡ map (says_of ops.now) members.now) }
{
    let mut all = Vec::new(alloc);
    for class in members {
        let positions = class.to_vec(alloc)?;
        all.push(says_of(ops, &positions))?;
    }
    Ok(all)
}

/// What the class says.
pub(crate) fn said(all: &[Says], class: usize) -> Says
    ensures { result ≡ said all.now class }
{
    match all.get(class) {
        Some(says) => *says,
        None => silent(),
    }
}

/// Whether the class has an operation that hides.
pub(crate) fn hides(all: &[Says], class: usize) -> bool
    ensures { result ≡ hides all.now class }
{
    0 < said(all, class).last
}

/// Whether an operation under this clock comes after all that hides, where some does.
pub(crate) fn is_after(says: Says, clock: Clock) -> bool
    ensures { result ≡ is_after says clock }
{
    0 < says.last && says.last <= clock.entry(says.site)
}

/// What the showings of these classes know.
pub(crate) fn known_in(all: &[Says], classes: &[usize]) -> Clock
    ensures { result ≡ known_in all.now classes.now }
{
    let mut known = no_clock();
    for class in classes {
        known = either_clock(known, said(all, *class).known);
    }
    known
}

/// Whether the clock knows an operation.
pub(crate) fn knows_some(clock: Clock) -> bool
    ensures { result ≡ knows_some clock }
{
    clock.0.iter().any(|number| 0 < *number)
}
