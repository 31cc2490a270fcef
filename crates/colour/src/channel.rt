// Channels: 32-bit floats, judged by their bits before a float is made, so that no NaN ever is.
ghost use Rattle.std.specs.Prelude.{◌≡◌};
ghost use Rattle.std.specs.Float.{binary32};
ghost use Rattle.std.specs.Float.Ieee.{of_bits, to_bits};
ghost use Rattle.std.specs.Float.Ieee.Scale.{finite};
ghost use Rattle.algebra.specs.Reader.{pick};
ghost use Rattle.colour.specs.Models.{model_of};
ghost use Rattle.colour.specs.Channels.{in_unit, made, made_in, bits_of, model_in};

use crate::model::Model;
use fault::Fault;

// The bits of one, of minus zero, of infinity, and of the NaN that is written for any.
const ONE: u32 = 0x3f80_0000;

const MINUS_ZERO: u32 = 0x8000_0000;

const INFINITY: u32 = 0x7f80_0000;

const NAN: u32 = 0x7fc0_0000;

/// A colour of a model, with its channels.
#[derive(Clone, Copy)]
pub enum Channels {
    Rgb(f32, f32, f32),
    Cmyk(f32, f32, f32, f32),
    Lab(f32, f32, f32),
    Gray(f32),
}

pub(crate) fn is_finite(bits: u32) -> bool
    ensures { result ≡ finite (of_bits binary32 bits) }
{
    bits % MINUS_ZERO < INFINITY
}

// Whether the float is from 0 to 1. Minus zero is zero.
pub(crate) fn is_unit(bits: u32) -> bool
    ensures { result ≡ in_unit (of_bits binary32 bits) }
{
    if bits == MINUS_ZERO {
        return true;
    }
    bits <= ONE
}

/// Whether a channel may have these bits: any finite float where it is wide, else one from 0 to 1.
/// A loop asks it, and looks at the model once.
pub fn is_channel(wide: bool, bits: u32) -> bool
    ensures { result ≡ pick wide (finite (of_bits binary32 bits)) (in_unit (of_bits binary32 bits)) }
{
    if wide {
        return is_finite(bits);
    }
    is_unit(bits)
}

/// The bits of a float.
pub fn bits_of(x: f32) -> u32
    ensures { result ≡ to_bits binary32 x }
{
    if x == x {
        return f32::to_bits(x);
    }
    NAN
}

impl Channels {
    /// The colour whose channels have these bits. Those that the model does not use are left alone.
    // Kept: four numbers, as those of `is_sound`.
    pub fn from_bits(model: Model, a: u32, b: u32, c: u32, d: u32) -> Result<Channels, Fault>
        ensures { result ≡ made model a b c d }
    {
        if !model.allows_all(a, b, c, d) {
            return Err(Fault::OutOfRange);
        }
        match model {
            Model::Rgb => Ok(Channels::Rgb(
                f32::from_bits(a),
                f32::from_bits(b),
                f32::from_bits(c),
            )),
            Model::Cmyk => Ok(Channels::Cmyk(
                f32::from_bits(a),
                f32::from_bits(b),
                f32::from_bits(c),
                f32::from_bits(d),
            )),
            Model::Lab => Ok(Channels::Lab(
                f32::from_bits(a),
                f32::from_bits(b),
                f32::from_bits(c),
            )),
            Model::Gray => Ok(Channels::Gray(f32::from_bits(a))),
        }
    }

    /// The same by the model's tag.
    pub fn from_tag(tag: u32, a: u32, b: u32, c: u32, d: u32) -> Result<Channels, Fault>
        ensures { result ≡ made_in (model_of tag) a b c d }
    {
        match Model::from_tag(tag) {
            Some(model) => Self::from_bits(model, a, b, c, d),
            None => Err(Fault::Unknown),
        }
    }

    /// The bits of the channels, and 0 for those that the model does not use.
    pub fn bits(self) -> [u32; 4]
        ensures { result ≡ bits_of self }
    {
        match self {
            Channels::Rgb(x, y, z) => [bits_of(x), bits_of(y), bits_of(z), 0],
            Channels::Cmyk(x, y, z, w) => [bits_of(x), bits_of(y), bits_of(z), bits_of(w)],
            Channels::Lab(x, y, z) => [bits_of(x), bits_of(y), bits_of(z), 0],
            Channels::Gray(x) => [bits_of(x), 0, 0, 0],
        }
    }

    /// Its model.
    pub fn model(self) -> Model
        ensures { result ≡ model_in self }
    {
        match self {
            Channels::Rgb(_, _, _) => Model::Rgb,
            Channels::Cmyk(_, _, _, _) => Model::Cmyk,
            Channels::Lab(_, _, _) => Model::Lab,
            Channels::Gray(_) => Model::Gray,
        }
    }
}
