//! What workers did, put together.

ghost use Rattle.std.specs.Prelude.{◌≡◌, ℕ, ◌+◌, ◌<◌, ◌++◌, OnOk, IfOk, Ok, length, map};
ghost use Rattle.std.specs.Prelude.{vec_len};
ghost use Rattle.std.specs.List.{flat_map};
ghost use Rattle.gf_plane.specs.declared.colour.Rgb.{Rgb};
ghost use Rattle.gf_plane.specs.declared.point.Point.{Point};
ghost use Rattle.gf_scanline.specs.Windows.{View};
ghost use Rattle.gf_scanline.specs.Picture.{cells, rows};
ghost use Rattle.gf_raster.specs.Shares.{cut};
ghost use Rattle.gf_raster.specs.Columns.{AreColumns, HaveLines};
ghost use Rattle.gf_raster.specs.Workers.{GivesAll};

use gf_base::OutOfMemory;
use gf_scanline::Stroke;
use std::alloc::Global;
use std::thread;
use std::thread::Threads;

/// What `f` gives for each number below `count`, called in a thread of its own where one can be
/// started.
pub(crate) fn all_of<
    R: Threads + Sync,
    X: Send + Drop,
    F: Fn(usize) -> Result<X, OutOfMemory> + Sync,
>(rt: &R, alloc: Global, count: usize, f: &F) -> Result<Vec<X>, OutOfMemory>
    requires { (i : ℕ) → i < count → F.pre f.now i }
    ensures len { IfOk result (λ xs. vec_len xs ≡ count) }
    ensures each { IfOk result (λ xs. GivesAll F.Fn f.now count xs.items) }
{
    let results = thread::map_indices(rt, alloc, count, f)?;
    let all = all_ok(alloc, results)?;
    Ok(all)
}

/// The values, where memory was there for each of them.
fn all_ok<X: Drop>(
    alloc: Global,
    results: Vec<Result<X, OutOfMemory>>,
) -> Result<Vec<X>, OutOfMemory>
    ensures { IfOk result (λ all. results.items ≡ map Ok all.items) }
{
    let mut all = Vec::new(alloc);
    for result in results {
        let one = result?;
        all.push(one)?;
    }
    Ok(all)
}

/// The bytes of `count` rows: of each the workers' columns, one after another.
pub(crate) fn gather(
    alloc: Global,
    columns: &[Vec<Vec<u8>>],
    count: usize,
) -> Result<Vec<u8>, OutOfMemory>
    requires { HaveLines count columns.now }
    ensures { IfOk result (λ bytes. (colour : Point → Rgb) (w : View) (top size : ℕ)
        → ((i : ℕ) → i < count → AreColumns colour w (top + i) i size columns.now)
        → cut w.width size (length columns.now) ≡ w.width
        → bytes.items ≡ rows colour w top count) }
{
    let mut bytes = Vec::new(alloc);
    for i in 0..count {
        gather_row(columns, count, i, &mut bytes)?;
    }
    Ok(bytes)
}

/// Adds the bytes of row `i`, of `count` rows.
fn gather_row(
    columns: &[Vec<Vec<u8>>],
    count: usize,
    i: usize,
    bytes: &mut Vec<u8>,
) -> Result<(), OutOfMemory>
    requires lines { HaveLines count columns.now }
    requires i { i < count }
    ensures { OnOk result ((colour : Point → Rgb) (w : View) (j size : ℕ)
        → AreColumns colour w j i size columns.now
        → bytes.new.items
        ≡ bytes.old.items ++ cells colour w j 0 (cut w.width size (length columns.now))) }
{
    for pieces in columns {
        bytes.extend_from_slice(&pieces[i])?;
    }
    Ok(())
}

/// What rows show: the workers' shares, one after another.
pub(crate) fn joined<'l>(
    alloc: Global,
    shares: Vec<Vec<Vec<Stroke<'l>>>>,
) -> Result<Vec<Vec<Stroke<'l>>>, OutOfMemory>
    ensures { IfOk result (λ rows. rows.items ≡ flat_map (λ s. s.items) shares.entry.items) }
{
    let mut rows = Vec::new(alloc);
    for share in shares {
        let mut found = share;
        rows.append(&mut found)?;
    }
    Ok(rows)
}
