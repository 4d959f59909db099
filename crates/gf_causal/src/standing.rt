//! What stands under the id of an operation.

ghost use Rattle.std.specs.Prelude.{◌≡◌, option_copied};
ghost use Rattle.gf_causal.specs.Keeping.{Compares, Among, joined};

use gf_ops::{History, Op, same_op};

/// What stands under the id of an operation.
#[derive(Clone, Copy, PartialEq, Eq)]
pub(crate) enum Standing {
    /// No operation.
    Free,
    /// The same operation.
    Same,
    /// Another operation.
    Other,
}

/// How what was found under the id of the operation compares to it.
pub(crate) fn compare(found: Option<&Op>, op: &Op) -> Standing
    ensures { Compares (option_copied found.entry) op.now result }
{
    match found {
        None => Standing::Free,
        Some(other) => {
            if same_op(other, op) {
                Standing::Same
            } else {
                Standing::Other
            }
        }
    }
}

/// What stands under the id of the operation in the history.
pub(crate) fn in_history(history: &History, op: &Op) -> Standing
    ensures { Among history.now.ops op.now result }
{
    // The ids of a history are distinct.
    let _ops = history.ops();
    compare(history.get(op.id), op)
}

/// What stands under an id in the buffer and the history together.
pub(crate) fn join(held: Standing, known: Standing) -> Standing
    ensures { result ≡ joined held known }
{
    match held {
        Standing::Other => Standing::Other,
        Standing::Free => known,
        Standing::Same => match known {
            Standing::Other => Standing::Other,
            Standing::Same | Standing::Free => Standing::Same,
        },
    }
}
