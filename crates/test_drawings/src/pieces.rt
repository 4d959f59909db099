//! FIG texts by their pieces.

use std::alloc::Global;
use test_kit::{EMPTY_FIG, RED_BOX_FIG};

/// The text of pieces with ` / ` between them, such as `empty / 0 32 #ff0000\n`. A piece has a
/// name, or spells its white space `\n`, `\t`, `\r` and `\s`.
pub(crate) fn text(alloc: Global, pieces: &str) -> Option<String> {
    let mut text = String::new(alloc);
    for piece in pieces.split(" / ") {
        match (named(piece), piece.strip_prefix("comb ")) {
            (Some(named), _) => text.push_str(named).ok()?,
            (None, Some(points)) => push_comb(alloc, &mut text, points.parse().ok()?)?,
            (None, None) => push_spelt(&mut text, piece)?,
        }
    }
    Some(text)
}

fn push_spelt(text: &mut String, piece: &str) -> Option<()> {
    let mut parts = piece.split('\\');
    text.push_str(parts.next()?).ok()?;
    for part in parts {
        let (white, rest) = match part.split_at_checked(1) {
            Some(("n", rest)) => ("\n", rest),
            Some(("t", rest)) => ("\t", rest),
            Some(("r", rest)) => ("\r", rest),
            Some(("s", rest)) => (" ", rest),
            _ => ("\\", part),
        };
        text.push_str(white).ok()?;
        text.push_str(rest).ok()?;
    }
    Some(())
}

/// Appends a red polygon of this many points, (n, 0) or (n, 1) in turn, and the first one again.
fn push_comb(alloc: Global, text: &mut String, points: u32) -> Option<()> {
    let count = points.saturating_add(1);
    let front = format!(in alloc; "2 3 0 0 4 4 0 -1 20 0.000 0 0 -1 0 0 {count}\n\t").ok()?;
    text.push_str(front.as_str()).ok()?;
    for n in 0..points {
        let point = format!(in alloc; " {n} {}", n % 2).ok()?;
        text.push_str(point.as_str()).ok()?;
    }
    text.push_str(" 0 0\n").ok()
}

/// The piece of this name.
fn named(name: &str) -> Option<&'static str> {
    match name {
        "nothing" => Some(""),
        "empty" => Some(EMPTY_FIG),
        "red box" => Some(RED_BOX_FIG),
        // The lines before a triangle, as another program writes them.
        "foreign" => Some(
            "#FIG 3.2  Produced by xfig version 3.2.5\nLandscape\nCenter\nInches\nLetter  \n100.00\nSingle\n-2\n1200 2\n# a triangle\n",
        ),
        "circle" => Some("1 3 0 0 2 2 0 -1 20 0.000 1 0.0000 0 0 1 1 0 0 1 0\n"),
        "ellipse" => Some("1 1 0 0 1 1 0 -1 20 0.000 1 0.0000 0 0 3 2 0 0 3 2\n"),
        "round" => Some("1 1 0 0 2 2 0 -1 20 0.000 1 0.0000 0 0 1 1 0 0 1 1\n"),
        "corner" => Some("2 2 0 0 4 4 0 -1 20 0.000 0 0 -1 0 0 5\n\t 0 0 1 0 1 1 0 1 0 0\n"),
        "seam" => Some("2 2 0 0 4 4 0 -1 20 0.000 0 0 -1 0 0 5\n\t 63 0 64 0 64 1 63 1 63 0\n"),
        "box" => Some("2 2 0 0 4 4 0 -1 20 0.000 0 0 -1 0 0 5\n\t 0 0 10 0 10 10 0 10 0 0\n"),
        "house" => Some("2 3 0 0 4 4 0 -1 20 0.000 0 0 -1 0 0 6\n\t 0 0 4 0 4 4 2 6 0 4 0 0\n"),
        // The later one of a depth lies on top, and so does the lesser depth.
        "level" => Some(
            "2 2 0 0 4 4 7 -1 20 0.000 0 0 -1 0 0 5\n\t 0 0 2 0 2 2 0 2 0 0\n2 2 0 0 1 1 7 -1 20 0.000 0 0 -1 0 0 5\n\t 1 0 2 0 2 2 1 2 1 0\n",
        ),
        "overlaid" => Some(
            "2 2 0 0 1 1 7 -1 20 0.000 0 0 -1 0 0 5\n\t 1 0 2 0 2 2 1 2 1 0\n2 2 0 0 4 4 9 -1 20 0.000 0 0 -1 0 0 5\n\t 0 0 2 0 2 2 0 2 0 0\n",
        ),
        // Discs and chains over one another: a star, a comb of slanted teeth, a line there and back.
        "crowd" => Some(
            "1 3 0 0 2 2 40 -1 20 0.000 1 0.0000 3 4 9 9 3 4 12 4\n2 3 0 0 4 4 30 -1 20 0.000 0 0 -1 0 0 6\n\t 0 -12 7 10 -11 -4 11 -4 -7 10 0 -12\n1 3 0 0 6 6 20 -1 20 0.000 1 0.0000 -8 -8 3 3 -8 -8 -5 -8\n2 3 0 0 1 1 10 -1 20 0.000 0 0 -1 0 0 10\n\t -14 14 -10 3 -8 14 -4 5 -2 14 2 7 4 14 8 9 10 14 -14 14\n2 3 0 0 5 5 5 -1 20 0.000 0 0 -1 0 0 4\n\t -13 0 13 2 -13 0 -13 0\n2 2 0 0 0 0 2 -1 20 0.000 0 0 -1 0 0 5\n\t 9 -9 13 -9 13 -5 9 -5 9 -9\n",
        ),
        // A house in a meadow under two firs, as xfig saved it.
        "xfig header" => Some(
            "#FIG 3.2  Produced by xfig version 3.2.8b\nLandscape\nCenter\nMetric\nA4\n100.00\nSingle\n-2\n# figgroup knows 1.7 2.1\n1200 2\n0 32 #2e7d32\n0 33 #d84315\n0 34 #fff8e1\n0 35 #8bc34a\n0 36 #ffd54f\n0 37 #bbdefb\n",
        ),
        "sun" => Some(
            "# figgroup 1.1 at 110\n1 3 0 0 36 36 110 -1 20 0.000 1 0.0000 4050 660 330 330 4050 660 4380 660\n",
        ),
        "firs" => Some(
            "# figgroup 1.6 at 60 with 2.1\n2 3 0 0 32 32 60 -1 20 0.000 0 0 -1 0 0 12\n\t 840 2700 840 2550 480 2550 750 2100 600 2100 900 1500\n\t 1200 2100 1050 2100 1320 2550 960 2550 960 2700 840 2700\n# figgroup 1.6 at 70 with 1.7\n2 3 0 0 32 32 70 -1 20 0.000 0 0 -1 0 0 12\n\t 3840 2700 3840 2550 3480 2550 3750 2100 3600 2100 3900 1500\n\t 4200 2100 4050 2100 4320 2550 3960 2550 3960 2700 3840 2700\n",
        ),
        "roof" => Some(
            "# figgroup 1.5 at 80\n2 3 0 0 33 33 80 -1 20 0.000 0 0 -1 0 0 4\n\t 1650 1350 2400 750 3150 1350 1650 1350\n",
        ),
        "wall" => Some(
            "# figgroup 1.4 at 90\n2 2 0 0 34 34 90 -1 20 0.000 0 0 -1 0 0 5\n\t 1800 1350 3000 1350 3000 2400 1800 2400 1800 1350\n",
        ),
        "meadow" => Some(
            "# figgroup 1.3 at 100\n2 2 0 0 35 35 100 -1 20 0.000 0 0 -1 0 0 5\n\t 0 2100 4800 2100 4800 3000 0 3000 0 2100\n",
        ),
        "sky" => Some(
            "# figgroup 1.2 at 120\n2 2 0 0 37 37 120 -1 20 0.000 0 0 -1 0 0 5\n\t 0 0 4800 0 4800 3000 0 3000 0 0\n",
        ),
        "window" => Some(
            "2 2 0 0 0 33 50 -1 20 0.000 0 0 -1 0 0 5\n\t 2115 1665 2385 1665 2385 2115 2115 2115 2115 1665\n",
        ),
        _ => None,
    }
}
