// A sample of a scale from 0 to `full` as a channel, and back.
ghost use Rattle.std.specs.Prelude.{◌≡◌};
ghost use Rattle.colour.specs.Models.{traits_of};
ghost use Rattle.colour.specs.declared.model.Model.TheVariants.{Rgb, Gray};
ghost use Rattle.convert.specs.scaffold.Parts.{Full};
ghost use Rattle.conversion.specs.Scale.{channel_of, sample_of_bits};

use colour::Model;

// The bits of one: those of the other channels from 0 to 1 are below, save those of minus zero.
const ONE: u32 = 0x3f80_0000;

// Added to a product: the sum's whole part then stands at one place of its bits, above 36 others,
// and the half rounds.
const RAISED: f64 = 65536.5;

const PLACES: u64 = 0x10_0000_0000;

/// The sample as a channel.
pub fn quotient(full: u16, sample: u16) -> f32
    ensures { result ≡ channel_of full sample }
{
    (sample as f32) / (full as f32)
}

// The whole number nearest to `full` times the float with these bits, halves upward; 0 where they
// stand behind those of one. The product is exact; the sum may be rounded, by too little to reach
// the next number. There is no jump and no shift by a variable, so that a loop over it is compiled
// to vectors.
fn nearest(full: u16, bits: u32) -> u16
    requires { Full full }
    ensures { result ≡ sample_of_bits full bits }
{
    if ONE < bits {
        return 0;
    }
    let product = (f32::from_bits(bits) as f64) * (full as f64);
    ((f64::to_bits(product + RAISED) / PLACES) % 0x1_0000) as u16
}

/// The sample of a channel of RGB, which was judged.
// Kept: a name for each of the two scales, since a public function asks nothing of its scale.
pub fn rgb_sample(bits: u32) -> u16
    ensures { result ≡ sample_of_bits (traits_of Rgb).full bits }
{
    nearest(Model::RGB.full, bits)
}

/// The sample of a channel of gray, which was judged.
pub fn gray_sample(bits: u32) -> u16
    ensures { result ≡ sample_of_bits (traits_of Gray).full bits }
{
    nearest(Model::GRAY.full, bits)
}
