//! The red box from (100, 200), 300 by 400, and the drawing of nothing.

/// The line of the operation that creates the red box.
pub const RED_BOX: &str =
    r#"{"colour":"ff0000","id":[1,1],"kind":"box","layer":0,"op":"create","past":[0,0,0,0,0,0,0,0],"place":[100,200],"shown":true,"size":[300,400]}"#;

/// The FIG text of the red box's drawing.
pub const RED_BOX_FIG: &str =
    "#FIG 3.2\nLandscape\nCenter\nMetric\nA4\n100.00\nSingle\n-2\n1200 2\n0 32 #ff0000\n2 2 0 0 32 32 0 -1 20 0.000 0 0 -1 0 0 5\n\t 100 200 400 200 400 600 100 600 100 200\n";

/// The FIG text of the drawing of nothing.
pub const EMPTY_FIG: &str = "#FIG 3.2\nLandscape\nCenter\nMetric\nA4\n100.00\nSingle\n-2\n1200 2\n";
