//! What is told of a window that was chosen.

ghost use Rattle.std.specs.Prelude.{◌≡◌};
ghost use Rattle.gf_command.specs.Outcomes.{chosen_numbers, numbers_of};

use gf_scanline::Window;
use gf_studio::Extent;
use std::fmt;

/// The numbers of a window, which is told in the words that choose it again.
#[derive(Clone, Copy)]
pub(crate) struct Chosen {
    x: i32,
    y: i32,
    step: u32,
    width: u32,
    height: u32,
}

impl fmt::Display for Chosen {
    fn fmt<W: fmt::Write>(&self, f: &mut fmt::Formatter<W>) -> fmt::Result {
        write!(f, "--x={} --y={} --step={} ", self.x, self.y, self.step)?;
        write!(f, "--width={} --height={}", self.width, self.height)
    }
}

/// The numbers of a window, where it was chosen.
pub(crate) fn chosen_numbers(extent: Extent, window: Window) -> Option<Chosen>
    ensures { result ≡ chosen_numbers extent window }
{
    match extent {
        Extent::Window(_) => None,
        Extent::Fitted(_) => Some(numbers_of(window)),
    }
}

/// The numbers of this window.
fn numbers_of(window: Window) -> Chosen
    ensures { result ≡ numbers_of window }
{
    let height = window.height();
    Chosen {
        x: window.x(),
        y: window.line(0),
        step: window.step(),
        width: window.width(),
        height,
    }
}
