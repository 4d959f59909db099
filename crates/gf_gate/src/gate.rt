//! The gate, and the one that is open.

ghost use Rattle.std.specs.Prelude.{◌≡◌, false};

/// A thread calls `enter` with its number, from 1, and that of the piece that it begins. A
/// painter's pieces are the tiles of 64 by 64 pixels, from 0, row by row from the top. A site's
/// pieces are the commands of its script, from 1.
pub trait Gate {
    fn enter(&self, who: u8, piece: u32);

    /// Whether `enter` may let a thread wait for another one. Where it may, a painter starts as
    /// many threads as it is asked for, however little there is to paint.
    fn may_wait(&self) -> bool {
        true
    }
}

/// A gate that stops nobody.
#[derive(Clone, Copy)]
pub struct OpenGate;

impl Gate for OpenGate {
    fn enter(&self, _who: u8, _piece: u32) {}

    fn may_wait(&self) -> bool
        ensures { result ≡ false }
    {
        false
    }
}
