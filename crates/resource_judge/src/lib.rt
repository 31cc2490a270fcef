// Image resource blocks: judging a section by the layout.
#![tactic(auto)]

ghost use Rattle.std.specs.Prelude.{◌≡◌, ◌+◌, ◌%◌, ◌<◌, ℕ, length};
ghost use Rattle.algebra.specs.Reader.{field, judged, done, then, map_res};
ghost use Rattle.algebra.specs.Table.{verdict};
ghost use Rattle.fault.specs.Answer.{told_at, told_end};
ghost use Rattle.resource.specs.Reading.{pad, padded_part, sized_part, is_signature, block, blocks, resources};
ghost use Rattle.resource.specs.Rows.{to_record};
ghost use Rattle.resource_judge.specs.Answer.{told_found, told};
ghost use Rattle.resource_judge.specs.scaffold.Answer.{parts_from};

use fault::{Fault, Refusal};
use fields::{number_at, run_at};
use resource::Record;

// The place behind the pad of n bytes.
fn pad_at(file: &[u8], at: usize, n: usize) -> Result<usize, Refusal>
    ensures { told_end result ≡ done (pad n file.now at) }
{
    if n % 2 == 0 {
        return Ok(at);
    }
    let (v, next) = number_at::<u8>(file, at)?;
    if v != 0 {
        return Err(Refusal(Fault::OutOfRange, at));
    }
    Ok(next)
}

// The place behind n bytes and their pad, where k bytes before them count with them.
fn followed_at(file: &[u8], at: usize, k: usize, n: usize) -> Result<usize, Refusal>
    requires { k + n < 18446744073709551616 }
    ensures { told_end result ≡ done (padded_part k n file.now at) }
{
    let q = run_at(file, at, n)?;
    pad_at(file, q, k + n)
}

// The signature and the ID of the block at `at`.
fn head_at(file: &[u8], at: usize) -> Result<(u16, usize), Refusal>
    ensures { told_at (λ (i : ℕ). i) result ≡ then (judged 4 is_signature file.now at) (λ _ a. field 2 file.now a) }
{
    let (signature, a) = number_at::<u32>(file, at)?;
    if signature != resource::SIGNATURE {
        return Err(Refusal(Fault::WrongTag, at));
    }
    number_at::<u16>(file, a)
}

// The name and the data of a block from `at`, whose ID was read. A name's length byte counts for its
// pad, the data's size does not.
fn parts_at(file: &[u8], at: usize, id: u32) -> Result<(Record, usize), Refusal>
    ensures { told_found result ≡ parts_from id file.now at }
{
    let (letters, name) = number_at::<u8>(file, at)?;
    let p = followed_at(file, name, 1, letters as usize)?;
    let (size, payload) = number_at::<u32>(file, p)?;
    let next = followed_at(file, payload, 0, size as usize)?;
    Ok((
        Record {
            id,
            name,
            letters: letters as usize,
            payload,
            size: size as usize,
        },
        next,
    ))
}

/// The block at `at`, and the place behind it.
pub fn block_at(file: &[u8], at: usize) -> Result<(Record, usize), Refusal>
    ensures { told_found result ≡ map_res to_record (block file.now at) }
{
    let (id, parts) = head_at(file, at)?;
    parts_at(file, parts, u32::from(id))
}

// The place behind n bytes and their pad, which is asked for by the place where it would stand and not
// by their number, so that a length stays one load. In a block at an even place that is the same.
fn even_end(file: &[u8], at: usize, n: usize) -> Result<usize, Refusal>
    ensures { told_end result ≡ done (padded_part at n file.now at) }
{
    let q = run_at(file, at, n)?;
    pad_at(file, q, q)
}

// The place behind a block's data, from an even place.
fn data_end(file: &[u8], at: usize) -> Result<usize, Refusal>
    requires { at % 2 ≡ 0 }
    ensures { told_end result ≡ done (sized_part 4 0 file.now at) }
{
    let (size, first) = number_at::<u32>(file, at)?;
    even_end(file, first, size as usize)
}

// The place behind a block's name and data, from an even place.
fn parts_end(file: &[u8], at: usize) -> Result<usize, Refusal>
    requires { at % 2 ≡ 0 }
    ensures { told_end result ≡ then (done (sized_part 1 1 file.now at)) (λ _ p. done (sized_part 4 0 file.now p)) }
{
    let (letters, first) = number_at::<u8>(file, at)?;
    let p = even_end(file, first, letters as usize)?;
    data_end(file, p)
}

// The place behind the block at an even place.
fn block_end(file: &[u8], at: usize) -> Result<usize, Refusal>
    requires { at % 2 ≡ 0 }
    ensures { told_end result ≡ done (block file.now at) }
{
    let (_, parts) = head_at(file, at)?;
    parts_end(file, parts)
}

// The blocks from the first to the section's end.
fn blocks_in(file: &[u8]) -> Result<usize, Refusal>
    ensures { told result ≡ verdict length (blocks file.now 0) }
{
    let mut at: usize = 0;
    let mut n: usize = 0;
    // Kept: a turn goes to the place behind a block, which only the block tells.
    while at != file.len() {
        at = block_end(file, at)?;
        n += 1;
    }
    Ok(n)
}

/// Judges a whole section: its number of blocks.
pub fn judge(file: &[u8]) -> Result<usize, Refusal>
    ensures { told result ≡ verdict length (resources file.now) }
{
    if resource::LIMIT < file.len() {
        return Err(Refusal(Fault::TooLong, 0));
    }
    blocks_in(file)
}
