// Photoshop documents: where the resource section lies, from the document's first bytes.
#![tactic(auto)]

ghost use Rattle.std.specs.Prelude.{◌≡◌};
ghost use Rattle.algebra.specs.Reader.{done, judged};
ghost use Rattle.algebra.specs.Table.{verdict};
ghost use Rattle.fault.specs.Answer.{told_end};
ghost use Rattle.resource_document.specs.Reading.{reserved, start, image, colours, resources_in, document};
ghost use Rattle.resource_document.specs.Answer.{told};

use fault::{Fault, Refusal};
use fields::{number_at, number_is, number_or_zero, run_at};

// `8BPS`.
const SIGNATURE: u32 = 0x3842_5053;

/// The place of a section's first byte, and the section's length.
#[derive(Clone, Copy, Debug, PartialEq, Eq)]
pub struct Section {
    pub first: usize,
    pub size: usize,
}

// Six bytes that are zero.
fn reserved_at(file: &[u8], at: usize) -> Result<usize, Refusal>
    ensures { told_end result ≡ done (judged 6 reserved file.now at) }
{
    let next = run_at(file, at, 6)?;
    if number_or_zero::<u32>(file, at) != 0 {
        return Err(Refusal(Fault::OutOfRange, at));
    }
    if number_or_zero::<u16>(file, at + 4) != 0 {
        return Err(Refusal(Fault::OutOfRange, at));
    }
    Ok(next)
}

// Signature, version, reserved bytes.
fn start_at(file: &[u8]) -> Result<usize, Refusal>
    ensures { told_end result ≡ done (start file.now 0) }
{
    let (signature, version) = number_at::<u32>(file, 0)?;
    if signature != SIGNATURE {
        return Err(Refusal(Fault::WrongTag, 0));
    }
    let reserved = number_is(file, version, 1, Fault::WrongTag)?;
    reserved_at(file, reserved)
}

// Channels, height, width, depth and mode.
fn image_at(file: &[u8], at: usize) -> Result<usize, Refusal>
    ensures { told_end result ≡ done (image file.now at) }
{
    let height = run_at(file, at, 2)?;
    let width = run_at(file, height, 4)?;
    let depth = run_at(file, width, 4)?;
    let mode = run_at(file, depth, 2)?;
    run_at(file, mode, 2)
}

// The colour mode data.
fn colours_at(file: &[u8], at: usize) -> Result<usize, Refusal>
    ensures { told_end result ≡ done (colours file.now at) }
{
    let (size, first) = number_at::<u32>(file, at)?;
    run_at(file, first, size as usize)
}

// The resource section, with its length.
fn resources_at(file: &[u8], at: usize) -> Result<Section, Refusal>
    ensures { told result ≡ verdict (λ x. x) (resources_in file.now at) }
{
    let (n, first) = number_at::<u32>(file, at)?;
    let size = n as usize;
    if resource::LIMIT < size {
        return Err(Refusal(Fault::TooLong, 0));
    }
    run_at(file, first, size)?;
    Ok(Section { first, size })
}

/// Where the resource section lies, from the document's first bytes.
pub fn resources(file: &[u8]) -> Result<Section, Refusal>
    ensures { told result ≡ verdict (λ x. x) (document file.now) }
{
    let image = start_at(file)?;
    let colours = image_at(file, image)?;
    let section = colours_at(file, colours)?;
    resources_at(file, section)
}
