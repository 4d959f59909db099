//! Colours that are ready to be painted.

ghost use Rattle.std.specs.Prelude.{◌≡◌, ◌++◌, IfOk, OnOk, length};
ghost use Rattle.gf_plane.specs.declared.colour.Rgb.{Rgb};
ghost use Rattle.gf_scanline.specs.Pixels.{pixels};

use gf_base::OutOfMemory;
use gf_shape::Rgb;
use std::alloc::Global;
use std::marker::Model;

/// How many columns a brush paints at a time.
const PATTERN_COLUMNS: usize = 64;

/// A colour with the bytes of 64 pixels of it, from which columns are painted.
#[derive(Drop)]
pub struct Brush {
    colour: Rgb,
    pattern: Vec<u8>,
}

impl Model for Brush {
    ghost use Rattle.std.specs.Prelude.{◌≡◌};
    ghost use Rattle.gf_plane.specs.declared.colour.Rgb.{Rgb};
    ghost use Rattle.gf_scanline.specs.Pixels.{pixels};

    ghost Value = { Rgb };

    ghost view = { λ b. b.colour };

    ghost invariant = { λ b. b.pattern.items ≡ pixels (λ _. b.colour) 0 64 };
}

impl Brush {
    /// The brush of a colour.
    pub fn new(alloc: Global, colour: Rgb) -> Result<Brush, OutOfMemory>
        ensures { IfOk result (λ b. b ≡ colour) }
    {
        let pattern = pattern(alloc, colour)?;
        Ok(Brush { colour, pattern })
    }

    /// Adds the bytes of this many columns, at most 64 at a time.
    pub(crate) fn append(&self, count: usize, bytes: &mut Vec<u8>) -> Result<(), OutOfMemory>
        ensures { OnOk result (bytes.new.items
            ≡ bytes.old.items ++ pixels (λ _. self.now) 0 count) }
    {
        append_pattern(&self.pattern, count, bytes)?;
        Ok(())
    }
}

/// The bytes of 64 pixels of a colour.
fn pattern(alloc: Global, colour: Rgb) -> Result<Vec<u8>, OutOfMemory>
    ensures { IfOk result (λ v. v.items ≡ pixels (λ _. colour) 0 64) }
{
    let mut bytes = Vec::with_capacity(alloc, 3 * PATTERN_COLUMNS)?;
    for k in 0..PATTERN_COLUMNS {
        bytes.extend_from_slice(&[colour.r, colour.g, colour.b])?;
    }
    Ok(bytes)
}

/// Adds the bytes of this many columns, at most 64 at a time.
fn append_pattern(pattern: &[u8], count: usize, bytes: &mut Vec<u8>) -> Result<(), OutOfMemory>
    requires { length pattern.now ≡ 192 }
    ensures { OnOk result ((c : Rgb) → pattern.now ≡ pixels (λ _. c) 0 64
        → bytes.new.items ≡ bytes.old.items ++ pixels (λ _. c) 0 count) }
{
    let mut left = count;
    while 0 < left {
        let some = left.min(PATTERN_COLUMNS);
        bytes.extend_from_slice(&pattern[..3 * some])?;
        left -= some;
    }
    Ok(())
}
