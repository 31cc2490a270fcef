// ASE palettes: writing the records of a run of numbers into lent bytes.
#![tactic(auto)]

ghost use Rattle.std.specs.Prelude.{◌≡◌, true, map, ◌+◌, ◌*◌, ◌≤◌, ◌<◌, length};
ghost use Rattle.std.proofs.lemmas.List.Edits.{sets};
ghost use Rattle.algebra.specs.Numbers.{be, joined};
ghost use Rattle.algebra.specs.Text.{name_bytes};
ghost use Rattle.algebra.specs.Table.{rows, whole};
ghost use Rattle.algebra.specs.Writing.{bytes};
ghost use Rattle.colour.specs.Models.{is_model, channels_of};
ghost use Rattle.ase.specs.Grammar.{block_bytes, file_bytes};
ghost use Rattle.ase.specs.Row.{width, taken, given_in};
ghost use Rattle.ase_writing.specs.Writing.{block_by_row, units_within, channels_in, name_size, size_within, size, written};
ghost use Rattle.fault.specs.Answer.{told_written};
ghost use Rattle.ase_write_judge.specs.scaffold.Parts.{name_fault, after_name_fault, start, after_name_bytes, RecordFits, RecordsFit};

use ase::{RowNumbers, WIDTH};
use fault::Fault;

// The types of a block, as a run has them.
const START: u32 = ase::GROUP_START as u32;

const STOP: u32 = ase::GROUP_END as u32;

// ---- storing

// Where a name begins; 0 for a name of no units, whose place may be any.
fn name_start(given: RowNumbers) -> usize
    ensures { result ≡ start (given_in given) }
{
    if given.units == 0 {
        return 0;
    }
    given.first as usize
}

// The name of a record.
fn put_name(out: &mut [u8], at: usize, text: &[u8], given: RowNumbers)
    requires { (at + name_size (given_in given) ≤ length out.old) × (name_fault text.now (given_in given) ≡ 0) }
    ensures { out.new ≡ sets out.old at (name_bytes 2 (units_within text.now (given_in given))) }
{
    let units = given.units;
    let first = name_start(given);
    let end = first + 2 * units as usize;
    fields::put_name::<u16>(out, at, (units + 1) as u16, &text[first..end]);
}

// The n channels of a model: one, three or four.
fn put_channels(out: &mut [u8], at: usize, n: usize, given: RowNumbers)
    requires { (at + 4 * n ≤ length out.old) × (n ≡ channels_of given.model) × (is_model given.model ≡ true) }
    ensures { out.new ≡ sets out.old at (joined (be 4) (channels_in (given_in given))) }
{
    fields::put_number::<u32>(out, at, given.channel0);
    if n == 1 {
        return;
    }
    fields::put_number::<u32>(out, at + 4, given.channel1);
    fields::put_number::<u32>(out, at + 8, given.channel2);
    if n == 3 {
        return;
    }
    fields::put_number::<u32>(out, at + 12, given.channel3);
}

// The model, the channels and the type of a colour.
fn put_after_name(out: &mut [u8], at: usize, given: RowNumbers)
    requires { (at + 6 + 4 * channels_of given.model ≤ length out.old) × (after_name_fault (given_in given) ≡ 0) }
    ensures { out.new ≡ sets out.old at (after_name_bytes (given_in given)) }
{
    let n = ase_write_judge::channels_of(given.model);
    fields::put_number::<u32>(out, at, given.model);
    put_channels(out, at + 4, n, given);
    fields::put_number::<u16>(out, at + 4 + 4 * n, given.ink as u16);
}

// A record of `size` bytes.
fn put_block(out: &mut [u8], at: usize, text: &[u8], size: usize, given: RowNumbers)
    requires { RecordFits text.now (given_in given) at (length out.old) × (size ≡ size_within (given_in given)) }
    ensures { out.new ≡ sets out.old at (block_bytes (block_by_row text.now (given_in given))) }
{
    fields::put_number::<u16>(out, at, given.block as u16);
    fields::put_number::<u32>(out, at + 2, (size - 6) as u32);
    if given.block == STOP {
        return;
    }
    put_name(out, at + 6, text, given);
    if given.block == START {
        return;
    }
    put_after_name(out, at + 10 + 2 * given.units as usize, given);
}

// The n records.
fn put_blocks(out: &mut [u8], at: usize, run: &[u32], text: &[u8], n: usize)
    requires { (width * n ≤ length run.now) × RecordsFit text.now (rows width taken run.now n 0) at (length out.old) }
    ensures { out.new ≡ sets out.old at (joined block_bytes (map (block_by_row text.now) (rows width taken run.now n 0))) }
{
    let mut p = at;
    for i in 0..n {
        let given = ase_write_judge::record_at(run, i);
        let size = ase_write_judge::size_in(given);
        put_block(out, p, text, size, given);
        p += size;
    }
}

// The whole file: `ASEF`, 1, 0, the number of records, the records.
fn put_file(out: &mut [u8], run: &[u32], text: &[u8], n: usize)
    requires { (width * n ≤ length run.now) × RecordsFit text.now (rows width taken run.now n 0) 12 (length out.old) }
    ensures { out.new ≡ sets out.old 0 (file_bytes (map (block_by_row text.now) (rows width taken run.now n 0))) }
{
    fields::put_number::<u32>(out, 0, ase::SIGNATURE);
    fields::put_number::<u16>(out, 4, 1);
    fields::put_number::<u16>(out, 6, 0);
    fields::put_number::<u32>(out, 8, n as u32);
    put_blocks(out, 12, run, text, n);
}

/// Writes the records, whose names lie in `text`, into `out`, and answers with how many bytes; a
/// refusal changes nothing.
pub fn write(records: &[u32], text: &[u8], out: &mut [u8]) -> Result<usize, Fault>
    ensures { (told_written result, out.new) ≡ written text.now (whole width taken records.now) out.old }
{
    let size = ase_write_judge::write_length(records, text)?;
    if out.len() < size {
        return Err(Fault::NoRoom);
    }
    put_file(out, records, text, records.len() / WIDTH);
    Ok(size)
}
