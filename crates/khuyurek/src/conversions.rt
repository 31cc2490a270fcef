// Conversions for C.
ghost use Rattle.std.specs.Prelude.{◌≡◌};
ghost use Rattle.conversion.specs.Convert.{to_channel, to_sample};
ghost use Rattle.convert.specs.Answer.{told};
ghost use Rattle.khuyurek.specs.Convert.{channel_of, sample_of};

use fault::Fault;

// Number 0 is given, with the bits of the channel; else the refusal, whose place is 0.
#[repr(C)]
#[derive(Drop)]
pub struct ChannelBits {
    pub number: u32,
    pub bits: u32,
}

// Number 0 is given, with the sample; else the refusal, whose place is 0.
#[repr(C)]
#[derive(Drop)]
pub struct SampleValue {
    pub number: u32,
    pub sample: u16,
}

fn exported_channel(c: Result<f32, Fault>) -> ChannelBits
    ensures { result ≡ channel_of (told c) }
{
    match c {
        Ok(x) => ChannelBits {
            number: 0,
            bits: colour::bits_of(x),
        },
        Err(fault) => ChannelBits {
            number: fault.number(),
            bits: 0,
        },
    }
}

fn exported_sample(s: Result<u16, Fault>) -> SampleValue
    ensures { result ≡ sample_of (told s) }
{
    match s {
        Ok(sample) => SampleValue { number: 0, sample },
        Err(fault) => SampleValue {
            number: fault.number(),
            sample: 0,
        },
    }
}

// The channel of a sample of a space.
#[unsafe(no_mangle)]
pub extern "C" fn khuyurek_to_channel(space: u16, sample: u16) -> ChannelBits
    ensures { result ≡ channel_of (to_channel space sample) }
{
    exported_channel(convert::to_channel(space, sample))
}

// The sample of a channel, by its bits, of the model with a tag.
#[unsafe(no_mangle)]
pub extern "C" fn khuyurek_to_sample(model: u32, bits: u32) -> SampleValue
    ensures { result ≡ sample_of (to_sample model bits) }
{
    exported_sample(convert::to_sample(model, bits))
}
