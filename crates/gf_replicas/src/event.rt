//! What may happen in a world.

use gf_ops::Change;

/// What happens at the site of a number.
#[derive(Drop)]
pub enum Event {
    /// The site makes a change.
    Author(u8, Change),
    /// The site is offered the message of this number, from 0 as they were authored.
    Offer(u8, usize),
    /// The site steps.
    Step(u8),
}
