//! Texts that stand on one line.

ghost use Rattle.std.specs.Prelude.{◌≡◌};
ghost use Rattle.gf_check.specs.FaultLines.{IsOnOneLine};

/// The text, or a fixed one where the text has a line end.
pub(crate) fn on_one_line(text: &[u8]) -> &[u8]
    ensures one_line { IsOnOneLine result.now }
    ensures same { IsOnOneLine text.now → result.now ≡ text.now }
{
    if text.contains(&b'\n') {
        b"see the formats"
    } else {
        text
    }
}
