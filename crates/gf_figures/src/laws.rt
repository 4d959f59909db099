//! The law of drawings, the contract of a function that does nothing.

ghost use Rattle.std.specs.Prelude.{◌≡◌};
ghost use Rattle.gf_plane.specs.declared.point.Point.{Point};
ghost use Rattle.gf_shape.specs.FigureMeaning.{outline_holds};
ghost use Rattle.gf_figures.specs.DrawingColour.{drawing_colour};
ghost use Rattle.gf_figures.specs.DrawingState.{DrawingState};
ghost use Rattle.gf_figures.specs.Outlined.{outlined};

use gf_shape::Shape;

/// The outlines of shapes paint the colours that the shapes paint.
pub fn outlines_paint_as_their_shapes<S: Shape>()
    ensures { (d : DrawingState S) (p : Point)
        → drawing_colour outline_holds d.table (outlined S.outline d).figures p
        ≡ drawing_colour S.holds d.table d.figures p }
{}
