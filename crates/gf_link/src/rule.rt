//! The rule of the queue below a link: who may send and take, and what each step leaves.

use crate::Message;
use crossbeam_queue::protocol::{Join, Lesson, Outcome, Protocol, Split};
use std::collections::LinkedList;

/// What a pass may do, and what it has sent and taken. No value of this type is made.
pub struct Log {
    pub sends: bool,
    pub takes: bool,
    pub sent: LinkedList<Message>,
    pub taken: LinkedList<Message>,
}

/// What was sent is what was taken and then what the queue holds.
pub struct InOrder;

impl Protocol<Message, Log> for InOrder {
    ghost use Rattle.std.specs.Prelude.{true, []};
    ghost use Rattle.gf_link.specs.Kept.{log, IsLossless};

    ghost holds = { IsLossless };

    ghost first = { log true true [] [] };
}

/// The first pass is split into that of the sender and that of the taker, and they are joined
/// again.
pub struct Roles;

impl Split<Log> for Roles {
    ghost use Rattle.std.specs.Prelude.{true, false, []};
    ghost use Rattle.gf_link.specs.Kept.{log};

    ghost left = { λ v. log true false v.sent [] };

    ghost right = { λ v. log false true [] v.taken };
}

impl Join<Log> for Roles {
    ghost use Rattle.std.specs.Prelude.{true, false, []};
    ghost use Rattle.gf_link.specs.Kept.{log};

    ghost both = { λ v w. log true true v.sent w.taken };

    ghost spent = { log false false [] [] };
}

/// A message is sent: it stands behind those sent before it, and the queue holds no more than was
/// sent.
pub struct Sent;

impl Outcome<Message, Log> for Sent {
    ghost use Rattle.std.specs.Prelude.{◌≡◌, ◌++◌, ◌∷◌, []};
    ghost use Rattle.gf_link.specs.Kept.{log};

    ghost then = { λ v m w. w ≡ log v.sends v.takes (v.sent ++ m ∷ []) v.taken };
}

impl Lesson<Message, Log> for Sent {
    ghost use Rattle.std.specs.Prelude.{◌≤◌, length};

    ghost fact = { λ v items. length items ≤ length v.sent };
}

/// A message is taken.
pub struct Got;

impl Outcome<Message, Log> for Got {
    ghost use Rattle.gf_link.specs.Kept.{TakesMessage};

    ghost then = { TakesMessage };
}

impl Lesson<Message, Log> for Got {
    ghost use Rattle.std.specs.Prelude.{⊤};

    ghost fact = { λ v items. ⊤ };
}

/// Both lists are known, so what the queue holds is known, too.
pub struct Total;

impl Lesson<Message, Log> for Total {
    ghost use Rattle.std.specs.Prelude.{◌≡◌, ◌++◌, IsTrue};
    ghost use Rattle.gf_link.specs.Ends.{ends_last};

    ghost fact = { λ v items. (v.sent ≡ v.taken ++ items) × IsTrue (ends_last v.sent) };
}
