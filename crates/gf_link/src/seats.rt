//! The rights to send on a link and to take from it.

ghost use Rattle.std.specs.Prelude.{◌≡◌, length};
ghost use Rattle.gf_link.specs.Ends.{is_ended};

use crate::Message;
use crate::rule::Log;
use crossbeam_queue::Pass;
use std::marker::Model;

/// The right to send on a link. Contracts see it as its link's name and the list of what was sent.
#[derive(Drop)]
pub struct SendSeat {
    pub(crate) pass: Pass<Message, Log>,
    pub(crate) sent: u32,
    pub(crate) ended: bool,
}

impl Model for SendSeat {
    ghost use Rattle.gf_link.specs.Seats.{SendSide};

    ghost Value = { SendSide };

    ghost use Rattle.gf_link.specs.Seated.{sends, IsSender};

    ghost view = { sends };

    ghost invariant = { IsSender };
}

/// The right to take from a link. Contracts see it as its link's name and the list of what was
/// taken.
#[derive(Drop)]
pub struct TakeSeat {
    pub(crate) pass: Pass<Message, Log>,
    pub(crate) taken: u32,
    pub(crate) ended: bool,
}

impl Model for TakeSeat {
    ghost use Rattle.gf_link.specs.Seats.{TakeSide};

    ghost Value = { TakeSide };

    ghost use Rattle.gf_link.specs.Seated.{takes, IsTaker};

    ghost view = { takes };

    ghost invariant = { IsTaker };
}

impl SendSeat {
    /// How many messages were sent.
    pub fn sent(&self) -> u32
        ensures { result ≡ length self.now.sent }
    {
        self.sent
    }

    /// Whether an End or a Stop was sent.
    pub fn ended(&self) -> bool
        ensures { result ≡ is_ended self.now.sent }
    {
        self.ended
    }
}

impl TakeSeat {
    /// How many messages were taken.
    pub fn taken(&self) -> u32
        ensures { result ≡ length self.now.taken }
    {
        self.taken
    }

    /// Whether an End or a Stop was taken.
    pub fn ended(&self) -> bool
        ensures { result ≡ is_ended self.now.taken }
    {
        self.ended
    }
}
