//! The change that aims at the version on top at a point.

ghost use Rattle.std.specs.Prelude.{◌≡◌, IfOk, option_map};
ghost use Rattle.gf_inspect.specs.AimedChange.{AimsAtTop, aimed_change};

use crate::{VersionName, top_at};
use gf_base::OutOfMemory;
use gf_ops::{Change, History, Value};
use gf_shape::Point;
use std::alloc::Global;

/// The change that sets this value on the object on top at a point, aimed at the version seen
/// there. The change is meant for the versions that hold all operations of that one. None where no
/// visible version holds the point. The aim may have more ids than an operation may.
pub fn aimed_at(
    alloc: Global,
    history: &History,
    point: Point,
    value: Value,
) -> Result<Option<Change>, OutOfMemory>
    ensures { IfOk result (λ change. AimsAtTop history.now.ops point value change) }
{
    let name = top_at(alloc, history, point)?;
    Ok(aimed_change(name, value))
}

/// The change that sets this value, aimed at the version of this name, if there is one.
fn aimed_change(name: Option<VersionName>, value: Value) -> Option<Change>
    ensures { result ≡ option_map (aimed_change value) name }
{
    match name {
        Some(name) => Some(Change::Set {
            object: name.object,
            value,
            aim: name.ops,
        }),
        None => None,
    }
}
