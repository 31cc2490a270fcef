// Colour spaces: their numbers, the samples that they use, and the values that those may have.
ghost use Rattle.std.specs.Prelude.{◌≡◌, ◌∷◌, []};
ghost use Rattle.colour.specs.Spaces.{uses, full, known, chrominance, ranged, allowed, sound};

use crate::model::Model;

pub const RGB: u16 = 0;

pub const HSB: u16 = 1;

pub const CMYK: u16 = 2;

pub const LAB: u16 = 7;

pub const GRAY: u16 = 8;

// A chrominance is signed and kept as its 16 bits: those of -12,800 are 65,536 - 12,800.
const CHROMINANCE_MOST: u16 = 12700;

const CHROMINANCE_LEAST: u16 = 52736;

/// A colour: the number of its space, and its four samples.
#[derive(Clone, Copy, Debug, PartialEq, Eq)]
pub struct Colour {
    pub space: u16,
    pub samples: [u16; 4],
}

/// How many samples a space uses; 0 for an unknown space.
pub fn samples_used(space: u16) -> u16
    ensures { result ≡ uses space }
{
    match space {
        RGB => 3,
        HSB => 3,
        CMYK => 4,
        LAB => 3,
        GRAY => 1,
        _ => 0,
    }
}

/// The largest sample of a space, in Lab of its lightness; 0 for an unknown space.
pub fn full_sample(space: u16) -> u16
    ensures { result ≡ full space }
{
    match space {
        RGB => Model::RGB.full,
        HSB => 65535,
        CMYK => Model::CMYK.full,
        LAB => Model::LAB.full,
        GRAY => Model::GRAY.full,
        _ => 0,
    }
}

/// Whether it is the number of a space.
pub fn is_known(space: u16) -> bool
    ensures { result ≡ known space }
{
    0 < samples_used(space)
}

// Whether a number of 16 bits is, as a signed one, from -12,800 to 12,700.
fn is_chrominance(sample: u16) -> bool
    ensures { result ≡ chrominance sample }
{
    (sample <= CHROMINANCE_MOST) | (CHROMINANCE_LEAST <= sample)
}

// Whether a sample that the space uses is in its range.
fn is_ranged(space: u16, position: u16, sample: u16) -> bool
    ensures { result ≡ ranged space position sample }
{
    if space != LAB {
        return sample <= full_sample(space);
    }
    if position == 0 {
        return sample <= full_sample(space);
    }
    is_chrominance(sample)
}

/// Whether the sample at a position may have this value.
pub fn is_allowed(space: u16, position: u16, sample: u16) -> bool
    ensures { result ≡ allowed space position sample }
{
    if samples_used(space) <= position {
        return sample == 0;
    }
    is_ranged(space, position, sample)
}

/// Whether a colour has no fault. RGB, HSB and CMYK are told by one comparison: a jump by the space
/// would be harder to foresee.
// Kept: four samples, and no array: numbers cross a call in registers, an array through memory.
pub fn is_sound(space: u16, a: u16, b: u16, c: u16, d: u16) -> bool
    ensures { result ≡ sound space (a ∷ b ∷ c ∷ d ∷ []) }
{
    if space <= CMYK {
        return (d == 0) | (space == CMYK);
    }
    if space == GRAY {
        return (a <= Model::GRAY.full) & (b == 0) & (c == 0) & (d == 0);
    }
    if space == LAB {
        return (a <= Model::LAB.full) & is_chrominance(b) & is_chrominance(c) & (d == 0);
    }
    false
}
