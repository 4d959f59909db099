//! The rows of direct classes and of the joint ones behind them.

ghost use Rattle.std.specs.Prelude.{◌≡◌, ◌+◌, ◌^◌, ◌<◌, length, IfOk, OnOk};
ghost use Rattle.gf_classes.specs.ClassRows.{AddsMet, AreAllRows, AreDirectRows, AreJointRows};
ghost use Rattle.gf_classes.specs.ClassRows.{IsJointRow, IsNear, IsRowOver};

use gf_base::OutOfMemory;
use gf_maximal::Numbers;
use std::alloc::Global;

/// Adds the numbers of the sets that have a number of this one; `first` is that of the first set.
fn add_met(
    set: &Numbers,
    sets: &[Numbers],
    first: usize,
    found: &mut Numbers,
) -> Result<(), OutOfMemory>
    requires { first + length sets.now < 2 ^ 64 }
    ensures { OnOk result (AddsMet first sets.now set.now found.old found.new) }
{
    for index in 0..sets.len() {
        if sets[index].intersects(set) {
            found.join(first + index)?;
        }
    }
    Ok(())
}

/// The classes that conflict with one of these.
fn near_of(alloc: Global, own: &Numbers, rows: &[Numbers]) -> Result<Numbers, OutOfMemory>
    ensures { IfOk result (λ near. IsNear rows.now own.now near) }
{
    let mut near = Numbers::new(alloc);
    add_met(own, rows, 0, &mut near)?;
    Ok(near)
}

/// Adds the joint classes to the row of a class that conflicts with these direct classes.
fn add_joints(
    alloc: Global,
    row: &mut Numbers,
    owns: &[Numbers],
    first: usize,
) -> Result<(), OutOfMemory>
    requires { first + length owns.now < 2 ^ 64 }
    ensures { OnOk result (IsRowOver first owns.now row.old row.new) }
{
    let mut joints = Numbers::new(alloc);
    add_met(row, owns, first, &mut joints)?;
    if !joints.is_empty() {
        *row = row.united(alloc, &joints)?;
    }
    Ok(())
}

/// The row of the joint class that brings these direct classes.
fn joint_row(
    alloc: Global,
    own: &Numbers,
    rows: &[Numbers],
    owns: &[Numbers],
) -> Result<Numbers, OutOfMemory>
    requires { length rows.now + length owns.now < 2 ^ 64 }
    ensures { IfOk result (λ row. IsJointRow rows.now owns.now own.now row) }
{
    let mut row = near_of(alloc, own, rows)?;
    add_joints(alloc, &mut row, owns, rows.len())?;
    Ok(row)
}

/// The rows of the joint classes.
fn joint_rows(
    alloc: Global,
    rows: &[Numbers],
    owns: &[Numbers],
) -> Result<Vec<Numbers>, OutOfMemory>
    requires { length rows.now + length owns.now < 2 ^ 64 }
    ensures count { IfOk result (λ found. length found.items ≡ length owns.now) }
    ensures each { IfOk result (λ found. AreJointRows rows.now owns.now found.items) }
{
    let mut found = Vec::new(alloc);
    for own in owns {
        found.push(joint_row(alloc, own, rows, owns)?)?;
    }
    Ok(found)
}

/// Adds the joint classes to the rows of the direct ones.
fn join_rows(alloc: Global, rows: &mut [Numbers], owns: &[Numbers]) -> Result<(), OutOfMemory>
    requires { length rows.old + length owns.now < 2 ^ 64 }
    ensures { OnOk result (AreDirectRows rows.old owns.now rows.new) }
{
    let first = rows.len();
    for row in rows.iter_mut() {
        add_joints(alloc, row, owns, first)?;
    }
    Ok(())
}

/// The rows of the direct classes, which conflict by `rows`. Behind them stand those of the joint
/// classes, by the direct classes that each brings.
pub(crate) fn all_rows(
    alloc: Global,
    rows: Vec<Numbers>,
    owns: &[Numbers],
) -> Result<Vec<Numbers>, OutOfMemory>
    requires { length owns.now < 2 ^ 63 }
    ensures { IfOk result (λ found. AreAllRows rows.items owns.now found.items) }
{
    let mut back = joint_rows(alloc, &rows, owns)?;
    let mut found = rows;
    join_rows(alloc, &mut found, owns)?;
    found.append(&mut back)?;
    Ok(found)
}
