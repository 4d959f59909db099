//! Colours.

/// A colour by its red, green and blue.
#[derive(Clone, Copy, Debug, PartialEq, Eq, Hash)]
pub struct Rgb {
    pub r: u8,
    pub g: u8,
    pub b: u8,
}

/// The colour of the plane where nothing is drawn.
pub const WHITE: Rgb = Rgb {
    r: 255,
    g: 255,
    b: 255,
};
