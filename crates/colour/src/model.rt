// Colour models: each has its tag, its channel count and its full scale.
ghost use Rattle.std.specs.Prelude.{◌≡◌};
ghost use Rattle.std.specs.Float.{binary32};
ghost use Rattle.std.specs.Float.Ieee.{of_bits};
ghost use Rattle.colour.specs.Models.{traits_of, model_of};
ghost use Rattle.colour.specs.Channels.{wide, allows, allows_all};

use crate::channel::is_channel;

/// What a model has: its four characters as a number, its channels, and its largest sample (in Lab
/// that of the lightness), which is the channel 1 where samples are converted.
#[derive(Clone, Copy, Debug, PartialEq, Eq)]
pub struct Traits {
    pub tag: u32,
    pub channels: u16,
    pub full: u16,
}

/// A colour model of ASE files.
#[derive(Clone, Copy, Debug, PartialEq, Eq)]
pub enum Model {
    Rgb,
    Cmyk,
    Lab,
    Gray,
}

impl Model {
    pub const RGB: Traits = Traits {
        tag: 0x5247_4220,
        channels: 3,
        full: 65535,
    };

    pub const CMYK: Traits = Traits {
        tag: 0x434d_594b,
        channels: 4,
        full: 65535,
    };

    pub const LAB: Traits = Traits {
        tag: 0x4c41_4220,
        channels: 3,
        full: 10000,
    };

    pub const GRAY: Traits = Traits {
        tag: 0x4772_6179,
        channels: 1,
        full: 10000,
    };

    /// The model with a tag.
    pub fn from_tag(tag: u32) -> Option<Model>
        ensures { result ≡ model_of tag }
    {
        if tag == Self::RGB.tag {
            return Some(Model::Rgb);
        }
        if tag == Self::CMYK.tag {
            return Some(Model::Cmyk);
        }
        if tag == Self::LAB.tag {
            return Some(Model::Lab);
        }
        if tag == Self::GRAY.tag {
            return Some(Model::Gray);
        }
        None
    }

    /// What it has.
    pub fn traits(self) -> Traits
        ensures { result ≡ traits_of self }
    {
        match self {
            Model::Rgb => Self::RGB,
            Model::Cmyk => Self::CMYK,
            Model::Lab => Self::LAB,
            Model::Gray => Self::GRAY,
        }
    }

    /// Whether a channel may be any finite float, and not only one from 0 to 1.
    pub fn is_wide(self) -> bool
        ensures { result ≡ wide self }
    {
        match self {
            Model::Rgb => false,
            Model::Cmyk => false,
            Model::Lab => true,
            Model::Gray => false,
        }
    }

    /// Whether a channel may have these bits: finite, and from 0 to 1 save in Lab.
    pub fn allows(self, bits: u32) -> bool
        ensures { result ≡ allows self (of_bits binary32 bits) }
    {
        is_channel(self.is_wide(), bits)
    }

    /// Whether the channels may have these bits, as many of them as the model has.
    pub fn allows_all(self, a: u32, b: u32, c: u32, d: u32) -> bool
        ensures { result ≡ allows_all self a b c d }
    {
        let x = self.allows(a);
        let y = self.allows(b);
        let z = self.allows(c);
        let w = self.allows(d);
        match self {
            Model::Rgb => x & y & z,
            Model::Cmyk => x & y & z & w,
            Model::Lab => x & y & z,
            Model::Gray => x,
        }
    }
}
