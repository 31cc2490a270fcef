// Samples to channels.
ghost use Rattle.std.specs.Prelude.{◌≡◌, true, ◌≤◌, length};
ghost use Rattle.std.proofs.lemmas.List.Edits.{sets};
ghost use Rattle.conversion.specs.Convert.{gives, and_then, to_channel};
ghost use Rattle.conversion.specs.Tray.{converted_in_order, to_bits_of, channels_of};
ghost use Rattle.tray.specs.Answer.{told};
ghost use Rattle.tray.specs.scaffold.Parts.{Passed, First, low, results, judged};

use crate::each::store_each;
use colour::{CMYK, GRAY, Model, RGB, bits_of};
use convert::{quotient, to_channel};
use fault::{Fault, Refusal};

// Whether all samples are on the scale of gray.
// Kept: a loop that goes on where one is not, since one with a single way out is compiled to vectors;
// and a mark as wide as the elements, of which a vector then holds as many.
fn all_low(samples: &[u16]) -> bool
    ensures { result ≡ true → Passed low samples.now (length samples.now) }
{
    let mut high: u16 = 0;
    for &sample in samples {
        high |= u16::from(sample > Model::GRAY.full);
    }
    high == 0
}

// The first sample above the scale of gray.
fn first_high(samples: &[u16]) -> Option<usize>
    ensures { First low samples.now result }
{
    if all_low(samples) {
        return None;
    }
    samples.iter().position(|&sample| sample > Model::GRAY.full)
}

// By one sample, the first.
fn judge_first(space: u16, sample: u16) -> Result<(), Refusal>
    ensures { told result ≡ and_then (to_channel space sample) (λ c. gives tt) }
{
    match to_channel(space, sample) {
        Ok(_) => Ok(()),
        Err(fault) => Err(Refusal(fault, 0)),
    }
}

fn judge(space: u16, samples: &[u16]) -> Result<(), Refusal>
    ensures { told result ≡ judged (converted_in_order (to_bits_of space) 0 samples.now) }
{
    if samples.is_empty() {
        return Ok(());
    }
    match space {
        RGB => Ok(()),
        CMYK => Ok(()),
        GRAY => match first_high(samples) {
            Some(at) => Err(Refusal(Fault::OutOfRange, at)),
            None => Ok(()),
        },
        _ => judge_first(space, samples[0]),
    }
}

// The channels of samples that were judged, a loop for each scale.
fn fill(space: u16, samples: &[u16], out: &mut [u32])
    requires { (gives tt ≡ judged (converted_in_order (to_bits_of space) 0 samples.now)) × (length samples.now ≤ length out.old) }
    ensures { out.new ≡ sets out.old 0 (results (converted_in_order (to_bits_of space) 0 samples.now)) }
{
    match space {
        RGB => store_each(
            samples,
            out,
            |sample| bits_of(quotient(Model::RGB.full, sample)),
        ),
        CMYK => store_each(
            samples,
            out,
            |sample| bits_of(quotient(Model::CMYK.full, Model::CMYK.full - sample)),
        ),
        GRAY => store_each(
            samples,
            out,
            |sample| bits_of(quotient(Model::GRAY.full, sample)),
        ),
        _ => {}
    }
}

/// The channels of a run of samples of one space, by their bits. The refusal is that of the first
/// element that is refused, with its position, or of the lent run, with position 0.
pub fn to_channels(space: u16, samples: &[u16], out: &mut [u32]) -> Result<(), Refusal>
    ensures { (told result, out.new) ≡ channels_of space samples.now out.old }
{
    judge(space, samples)?;
    if out.len() < samples.len() {
        return Err(Refusal(Fault::NoRoom, 0));
    }
    fill(space, samples, out);
    Ok(())
}
