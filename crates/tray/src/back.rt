// Channels to samples.
ghost use Rattle.std.specs.Prelude.{◌≡◌, true, ◌≤◌, length};
ghost use Rattle.std.proofs.lemmas.List.Edits.{sets};
ghost use Rattle.algebra.specs.Reader.{pick};
ghost use Rattle.conversion.specs.Convert.{gives, and_then, to_sample};
ghost use Rattle.conversion.specs.Tray.{converted_in_order, samples_of};
ghost use Rattle.tray.specs.Answer.{told};
ghost use Rattle.tray.specs.scaffold.Parts.{Passed, First, unit, converted, results, judged};

use crate::each::store_each;
use colour::{Model, is_channel};
use convert::{gray_sample, rgb_sample, to_sample};
use fault::{Fault, Refusal};

// Whether all channels are from 0 to 1.
// Kept: a loop, as `all_low` is.
fn all_unit(bits: &[u32]) -> bool
    ensures { result ≡ true → Passed unit bits.now (length bits.now) }
{
    let mut any: u32 = 0;
    for &channel in bits {
        any |= u32::from(!is_channel(false, channel));
    }
    any == 0
}

// The first channel that is not from 0 to 1.
fn first_outside(bits: &[u32]) -> Option<usize>
    ensures { First unit bits.now result }
{
    if all_unit(bits) {
        return None;
    }
    bits.iter().position(|&channel| !is_channel(false, channel))
}

// Whether the model with this tag has a space.
fn is_converted(tag: u32) -> bool
    ensures { result ≡ converted tag }
{
    (tag == Model::RGB.tag) | (tag == Model::CMYK.tag) | (tag == Model::GRAY.tag)
}

// By one channel, the first.
fn judge_first(tag: u32, bits: u32) -> Result<(), Refusal>
    ensures { told result ≡ and_then (to_sample tag bits) (λ s. gives tt) }
{
    match to_sample(tag, bits) {
        Ok(_) => Ok(()),
        Err(fault) => Err(Refusal(fault, 0)),
    }
}

fn judge(tag: u32, bits: &[u32]) -> Result<(), Refusal>
    ensures { told result ≡ judged (converted_in_order (to_sample tag) 0 bits.now) }
{
    if bits.is_empty() {
        return Ok(());
    }
    if is_converted(tag) {
        return match first_outside(bits) {
            Some(at) => Err(Refusal(Fault::OutOfRange, at)),
            None => Ok(()),
        };
    }
    judge_first(tag, bits[0])
}

// The samples of channels that were judged, a loop for each model.
fn fill(tag: u32, bits: &[u32], out: &mut [u16])
    requires { (gives tt ≡ judged (converted_in_order (to_sample tag) 0 bits.now)) × (length bits.now ≤ length out.old) }
    ensures { out.new ≡ sets out.old 0 (results (converted_in_order (to_sample tag) 0 bits.now)) }
{
    if tag == Model::RGB.tag {
        store_each(bits, out, |channel| rgb_sample(channel));
        return;
    }
    if tag == Model::CMYK.tag {
        store_each(bits, out, |channel| Model::CMYK.full - rgb_sample(channel));
        return;
    }
    if tag == Model::GRAY.tag {
        store_each(bits, out, |channel| gray_sample(channel));
        return;
    }
}

/// The samples of a run of channels of the model with a tag, given by their bits. The refusal is that
/// of the first element that is refused, with its position, or of the lent run, with position 0.
pub fn to_samples(tag: u32, bits: &[u32], out: &mut [u16]) -> Result<(), Refusal>
    ensures { (told result, out.new) ≡ samples_of tag bits.now out.old }
{
    judge(tag, bits)?;
    if out.len() < bits.len() {
        return Err(Refusal(Fault::NoRoom, 0));
    }
    fill(tag, bits, out);
    Ok(())
}
