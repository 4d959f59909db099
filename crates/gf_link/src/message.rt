//! What sites send to each other.

ghost use Rattle.std.specs.Prelude.{◌≡◌};
ghost use Rattle.gf_link.specs.Ends.{is_end};

use gf_ops::Op;

/// What a site sends to another.
#[derive(Drop)]
pub enum Message {
    /// An operation of the sender.
    Op(Op),
    /// The sender has sent all of its operations, and sends nothing more.
    End,
    /// The sender sends nothing more, and perhaps has not sent all.
    Stop,
}

impl Message {
    /// Whether nothing follows the message.
    pub(crate) fn is_end(&self) -> bool
        ensures { result ≡ is_end self.now }
    {
        matches!(self, Message::End | Message::Stop)
    }
}
