//! Objects and points as the words of the command line spell them.

ghost use Rattle.std.specs.Prelude.{◌≡◌, ◌≤◌, ◌<◌, ◌^◌, ℕ, ℤ, MatchOption, IsTrue, FitsSigned};
ghost use Rattle.std.specs.Int.{w32};
ghost use Rattle.gf_ops.specs.Limits.{is_id};
ghost use Rattle.gf_command.specs.Spelling.{AreOfId, AreOfPoint, SpellsId, SpellsNatural};
ghost use Rattle.gf_command.specs.Spelling.{SpellsPoint, SpellsWhole};

use gf_ops::OpId;
use gf_shape::Point;

/// The id spelt `SITE.SEQ`, with site 1 to 8 and seq 1 to 10,000.
pub(crate) fn spelt_id(text: &str) -> Option<OpId>
    ensures { MatchOption result ((i : OpId) → ¬ (SpellsId text.now i)) (SpellsId text.now) }
{
    let (site, seq) = text.split_once('.')?;
    id_of(site, seq)
}

/// The point spelt `X,Y`, of 32 bits with sign.
pub(crate) fn spelt_point(text: &str) -> Option<Point>
    ensures { MatchOption result ((p : Point) → FitsSigned w32 p.x → FitsSigned w32 p.y
        → ¬ (SpellsPoint text.now p)) (SpellsPoint text.now) }
{
    let (x, y) = text.split_once(',')?;
    point_of(x, y)
}

/// The id that two texts spell.
fn id_of(site: &str, seq: &str) -> Option<OpId>
    ensures { MatchOption result ((i : OpId) → ¬ (AreOfId site.now seq.now i))
        (AreOfId site.now seq.now) }
{
    match (natural(site), natural(seq)) {
        (Some(site), Some(seq)) => id(site, seq),
        _ => None,
    }
}

/// The id of two numbers, where they are in range.
fn id(site: u32, seq: u32) -> Option<OpId>
    ensures { MatchOption result ((i : OpId) → i.site ≡ site → i.seq ≡ seq → ¬ (IsTrue (is_id i)))
        (λ i. (i.site ≡ site) × (i.seq ≡ seq) × IsTrue (is_id i)) }
{
    if 1 <= site && site <= 8 && 1 <= seq && seq <= 10_000 {
        Some(OpId {
            site: site as u8,
            seq,
        })
    } else {
        None
    }
}

/// The point that two texts spell.
fn point_of(x: &str, y: &str) -> Option<Point>
    ensures { MatchOption result ((p : Point) → FitsSigned w32 p.x → FitsSigned w32 p.y
        → ¬ (AreOfPoint x.now y.now p)) (AreOfPoint x.now y.now) }
{
    match (whole(x), whole(y)) {
        (Some(x), Some(y)) => Some(Point { x, y }),
        _ => None,
    }
}

/// The number that a text spells by its digits alone.
fn natural(text: &str) -> Option<u32>
    ensures { MatchOption result ((n : ℕ) → n < 2 ^ 32 → ¬ (SpellsNatural text.now n))
        (SpellsNatural text.now) }
{
    if text.starts_with('+') {
        return None;
    }
    text.parse().ok()
}

/// The number that a text spells by its digits, behind a `-` where it is below zero.
fn whole(text: &str) -> Option<i32>
    ensures { MatchOption result ((z : ℤ) → FitsSigned w32 z → ¬ (SpellsWhole text.now z))
        (SpellsWhole text.now) }
{
    if text.starts_with('+') {
        return None;
    }
    text.parse().ok()
}
