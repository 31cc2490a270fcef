// ACO swatches: writing the records of a run of numbers into lent bytes, both lists always.
#![tactic(auto)]

ghost use Rattle.std.specs.Prelude.{◌≡◌, [], map, ◌+◌, ◌*◌, ◌%◌, ◌≤◌, ◌<◌, length};
ghost use Rattle.std.proofs.lemmas.List.Edits.{sets};
ghost use Rattle.algebra.specs.Numbers.{joined};
ghost use Rattle.aco.specs.Grammar.{colour_bytes, entry_bytes, two_lists};
ghost use Rattle.aco.specs.Reading.{most};
ghost use Rattle.algebra.specs.Table.{rows, whole};
ghost use Rattle.aco.specs.Row.{width, taken};
ghost use Rattle.aco_writing.specs.Writing.{swatch_in, size, written};
ghost use Rattle.algebra.specs.Writing.{bytes};
ghost use Rattle.fault.specs.Answer.{told_written};
ghost use Rattle.aco_write_judge.specs.scaffold.Parts.{told_record, colour_in, plain, start, EntryFits, EntriesFit};

use aco::WIDTH;
use aco_write_judge::{Record, record_at};
use colour::Colour;
use fault::Fault;

// ---- storing

// The low 16 bits: all of a number that was judged.
fn low(x: u32) -> u16
    ensures { result ≡ x % 65536 }
{
    (x % 65536) as u16
}

// The colour of a record.
fn colour_of(given: Record) -> Colour
    ensures { result ≡ colour_in (told_record given) }
{
    let a = low(given.samples[0]);
    let b = low(given.samples[1]);
    let c = low(given.samples[2]);
    let d = low(given.samples[3]);
    Colour {
        space: low(given.space),
        samples: [a, b, c, d],
    }
}

// The five fields of a colour from `at`.
fn put_fields(out: &mut [u8], at: usize, colour: Colour)
    requires { at + 10 ≤ length out.old }
    ensures { out.new ≡ sets out.old at (colour_bytes (plain colour)) }
{
    fields::put_number::<u16>(out, at, colour.space);
    fields::put_number::<u16>(out, at + 2, colour.samples[0]);
    fields::put_number::<u16>(out, at + 4, colour.samples[1]);
    fields::put_number::<u16>(out, at + 6, colour.samples[2]);
    fields::put_number::<u16>(out, at + 8, colour.samples[3]);
}

// The ten bytes of a colour. A part of known length is stored in without tests.
fn put_colour(out: &mut [u8], at: usize, colour: Colour)
    requires { at + 10 ≤ length out.old }
    ensures { out.new ≡ sets out.old at (colour_bytes (plain colour)) }
{
    let end = at + 10;
    put_fields(&mut out[at..end], 0, colour);
}

// The n colours of list 1.
fn put_colours(out: &mut [u8], at: usize, run: &[u32], n: usize)
    requires { (at + 10 * n ≤ length out.old) × (width * n ≤ length run.now) }
    ensures { out.new ≡ sets out.old at (joined colour_bytes (map (swatch_in []) (rows width taken run.now n 0))) }
{
    for i in 0..n {
        put_colour(out, at + 10 * i, colour_of(record_at(run, i)));
    }
}

// Where a record's name begins; 0 for a name of no units, whose place may be any.
fn name_start(given: Record) -> usize
    ensures { result ≡ start (told_record given) }
{
    if given.units == 0 {
        return 0;
    }
    given.first as usize
}

// A record of list 2.
fn put_entry(out: &mut [u8], at: usize, given: Record, text: &[u8])
    requires { EntryFits text.now (told_record given) at (length out.old) }
    ensures { out.new ≡ sets out.old at (entry_bytes (swatch_in text.now (told_record given))) }
{
    put_colour(out, at, colour_of(given));
    let first = name_start(given);
    let end = first + 2 * (given.units as usize);
    fields::put_name(out, at + 10, given.units + 1, &text[first..end]);
}

// The n records of list 2.
fn put_entries(out: &mut [u8], at: usize, run: &[u32], text: &[u8], n: usize)
    requires { (width * n ≤ length run.now) × EntriesFit text.now (rows width taken run.now n 0) at (length out.old) }
    ensures { out.new ≡ sets out.old at (joined entry_bytes (map (swatch_in text.now) (rows width taken run.now n 0))) }
{
    let mut p = at;
    for i in 0..n {
        let given = record_at(run, i);
        put_entry(out, p, given, text);
        p += 16 + 2 * (given.units as usize);
    }
}

// The whole file.
fn put_lists(out: &mut [u8], run: &[u32], text: &[u8], n: usize)
    requires { (width * n ≤ length run.now) × (n ≤ most) × EntriesFit text.now (rows width taken run.now n 0) (8 + 10 * n) (length out.old) }
    ensures { out.new ≡ sets out.old 0 (two_lists (map (swatch_in text.now) (rows width taken run.now n 0))) }
{
    fields::put_number::<u16>(out, 0, 1);
    fields::put_number::<u16>(out, 2, n as u16);
    put_colours(out, 4, run, n);
    fields::put_number::<u16>(out, 4 + 10 * n, 2);
    fields::put_number::<u16>(out, 6 + 10 * n, n as u16);
    put_entries(out, 8 + 10 * n, run, text, n);
}

/// Writes the records, whose names lie in `text`, into `out`; a refusal changes nothing.
pub fn write(records: &[u32], text: &[u8], out: &mut [u8]) -> Result<usize, Fault>
    ensures { (told_written result, out.new) ≡ written text.now (whole width taken records.now) out.old }
{
    let size = aco_write_judge::write_length(records, text)?;
    if out.len() < size {
        return Err(Fault::NoRoom);
    }
    put_lists(out, records, text, records.len() / WIDTH);
    Ok(size)
}
