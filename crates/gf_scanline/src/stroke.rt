//! What a row shows, stroke by stroke.

ghost use Rattle.std.specs.Prelude.{◌≡◌, ℕ, ◌+◌, ◌-◌, ◌≤◌, ◌++◌, OnOk, length};
ghost use Rattle.gf_plane.specs.declared.colour.Rgb.{Rgb};
ghost use Rattle.gf_scanline.specs.Pixels.{pixels};
ghost use Rattle.gf_scanline.specs.Strokes.{AreStrokesFrom, AreStrokesOf, IsFirstEnding};

use crate::Brush;
use gf_base::OutOfMemory;

/// Columns in one colour: from where the stroke before this one ends, to before `to`.
#[derive(Clone, Copy)]
pub struct Stroke<'b> {
    pub to: usize,
    pub brush: &'b Brush,
}

/// Adds the bytes of `len` columns from `from` on, in the colours of a row's strokes. The cost is a
/// binary search, and a step for each stroke with one of these columns.
pub fn fill(
    strokes: &[Stroke<'_>],
    from: usize,
    len: usize,
    bytes: &mut Vec<u8>,
) -> Result<(), OutOfMemory>
    requires { from + len ≤ 4096 }
    ensures { OnOk result ((target : ℕ → Rgb) (n : ℕ) → AreStrokesOf target n strokes.now
        → from + len ≤ n → bytes.new.items ≡ bytes.old.items ++ pixels target from len) }
{
    let first = first_ending(strokes, from);
    fill_on(&strokes[first..], from, from + len, bytes)?;
    Ok(())
}

/// How many of the first strokes end up to a column.
fn first_ending(strokes: &[Stroke<'_>], column: usize) -> usize
    ensures bound { result ≤ length strokes.now }
    ensures first { (target : ℕ → Rgb) (n : ℕ) → AreStrokesOf target n strokes.now
        → IsFirstEnding column strokes.now result }
{
    strokes.partition_point(|stroke| stroke.to <= column)
}

/// Adds the bytes of the columns from `from` to before `to`. The first of the strokes begins at
/// `from` or before.
fn fill_on(
    strokes: &[Stroke<'_>],
    from: usize,
    to: usize,
    bytes: &mut Vec<u8>,
) -> Result<(), OutOfMemory>
    requires { from ≤ to }
    ensures { OnOk result ((target : ℕ → Rgb) (n : ℕ) → AreStrokesFrom from target n strokes.now
        → to ≤ n → bytes.new.items ≡ bytes.old.items ++ pixels target from (to - from)) }
{
    let mut at = from;
    for stroke in strokes {
        if to <= at {
            return Ok(());
        }
        let end = stroke.to.min(to).max(at);
        stroke.brush.append(end - at, bytes)?;
        at = end;
    }
    Ok(())
}
