//! Colours in six hexadecimal digits.

ghost use Rattle.std.specs.Prelude.{◌≡◌, ◌<◌, ◌++◌, false, IfSome, OnOk};
ghost use Rattle.std.specs.Fmt.{digit_glyph};
ghost use Rattle.gf_plane.specs.HexDigits.{hex_byte, hex_rgb, hex_value, byte_of_hex, rgb_of_hex};

use crate::Rgb;
use std::alloc::AllocError;

/// Appends a colour in six hexadecimal digits of lower case.
pub fn push_hex_rgb(out: &mut Vec<u8>, colour: Rgb) -> Result<(), AllocError>
    ensures { OnOk result (out.new.items ≡ out.old.items ++ hex_rgb colour) }
{
    push_hex_byte(out, colour.r)?;
    push_hex_byte(out, colour.g)?;
    push_hex_byte(out, colour.b)
}

fn push_hex_byte(out: &mut Vec<u8>, byte: u8) -> Result<(), AllocError>
    ensures { OnOk result (out.new.items ≡ out.old.items ++ hex_byte byte) }
{
    out.push(hex_digit(byte / 16))?;
    out.push(hex_digit(byte % 16))?;
    Ok(())
}

/// The digit of a half byte, in lower case.
fn hex_digit(half: u8) -> u8
    requires { half < 16 }
    ensures { result ≡ digit_glyph false half }
{
    if half < 10 {
        b'0' + half
    } else {
        b'a' + (half - 10)
    }
}

/// The colour of six hexadecimal digits of either case.
pub fn rgb_of_hex(digits: &[u8]) -> Option<Rgb>
    ensures { result ≡ rgb_of_hex digits.now }
{
    let [a, b, c, d, e, f] = digits else {
        return None;
    };
    let r = byte_of_hex(*a, *b)?;
    let g = byte_of_hex(*c, *d)?;
    let b = byte_of_hex(*e, *f)?;
    Some(Rgb { r, g, b })
}

fn byte_of_hex(high: u8, low: u8) -> Option<u8>
    ensures { result ≡ byte_of_hex high low }
{
    let high = hex_value(high)?;
    let low = hex_value(low)?;
    Some(high * 16 + low)
}

/// What a hexadecimal digit of either case is worth.
fn hex_value(byte: u8) -> Option<u8>
    ensures value { result ≡ hex_value byte }
    ensures within { IfSome result (λ n. n < 16) }
{
    match byte {
        b'0'..=b'9' => Some(byte - b'0'),
        b'a'..=b'f' => Some(byte - b'a' + 10),
        b'A'..=b'F' => Some(byte - b'A' + 10),
        _ => None,
    }
}
