//! The law of fitted windows, the contract of a function that does nothing.

ghost use Rattle.std.specs.Prelude.{◌≡◌, Bool};
ghost use Rattle.gf_plane.specs.declared.point.Point.{Point};
ghost use Rattle.gf_scanline.specs.Frames.{Sides};
ghost use Rattle.gf_scanline.specs.Windows.{View};
ghost use Rattle.gf_fit.specs.FittedWindow.{IsFitted};

/// One window of a frame fits the points that are held, and no other.
pub fn one_window_fits()
    ensures { (holds : Point → Bool) (frame : Sides) (v w : View) →
        IsFitted holds frame v → IsFitted holds frame w → v ≡ w }
{}
