// Image resource blocks: a run of records to bytes.
#![tactic(auto)]

ghost use Rattle.std.specs.Prelude.{◌≡◌, ◌++◌, map, ◌+◌, ◌*◌, ◌%◌, ◌≤◌, ◌<◌, length};
ghost use Rattle.std.proofs.lemmas.List.Edits.{sets};
ghost use Rattle.algebra.specs.Numbers.{be};
ghost use Rattle.algebra.specs.Reader.{limit};
ghost use Rattle.algebra.specs.Store.{part};
ghost use Rattle.fault.specs.Answer.{told_written};
ghost use Rattle.resource.specs.Grammar.{block_bytes, section_bytes};
ghost use Rattle.resource.specs.Rows.{width};
ghost use Rattle.resource_writing.specs.Writing.{given, block_by_row, size_within, part_fault, written};
ghost use Rattle.resource_write_judge.specs.scaffold.Writing.{givens};
ghost use Rattle.resource_write_judge.specs.scaffold.Parts.{RecordFits, RecordsFit};

use fault::Fault;
use fields::{put_number, put_run};
use resource::{Record, SIGNATURE, WIDTH};

// The part of the lent bytes that holds n bytes; where n is 0 its place may be any.
fn part_of(text: &[u8], first: usize, n: usize) -> &[u8]
    requires { part_fault text.now first n ≡ 0 }
    ensures { result.now ≡ part text.now first n }
{
    if n == 0 {
        return &text[..0];
    }
    let end = first + n;
    &text[first..end]
}

// Bytes and their pad, where k bytes before them count with them; the place behind.
fn put_padded(out: &mut [u8], at: usize, k: usize, run: &[u8]) -> usize
    requires { (at + (length run.now + (k + length run.now) % 2) ≤ length out.old) × (k ≤ 1) × (length run.now ≤ limit) }
    ensures { (out.new ≡ sets out.old at (run.now ++ be ((k + length run.now) % 2) 0)) × (result ≡ at + (length run.now + (k + length run.now) % 2)) }
{
    let n = run.len();
    put_run(out, at, run);
    if (k + n) % 2 == 0 {
        return at + n;
    }
    out[at + n] = 0;
    at + n + 1
}

// `8BIM`, an ID and a length byte.
fn put_head(out: &mut [u8], at: usize, id: u32, letters: usize)
    requires { (at + 7 ≤ length out.old) × (id < 65536) × (letters < 256) }
    ensures { out.new ≡ sets out.old at (be 4 0x3842_494D ++ (be 2 id ++ be 1 letters)) }
{
    put_number::<u32>(out, at, SIGNATURE);
    put_number::<u16>(out, at + 4, id as u16);
    out[at + 6] = letters as u8;
}

// A block; the place behind it.
fn put_block(out: &mut [u8], at: usize, text: &[u8], given: Record) -> usize
    requires { RecordFits text.now given at (length out.old) }
    ensures { (out.new ≡ sets out.old at (block_bytes (block_by_row text.now given))) × (result ≡ at + size_within given) }
{
    put_head(out, at, given.id, given.letters);
    let p = put_padded(out, at + 7, 1, part_of(text, given.name, given.letters));
    put_number::<u32>(out, p, given.size as u32);
    put_padded(out, p + 4, 0, part_of(text, given.payload, given.size))
}

// The n records.
fn put_blocks(out: &mut [u8], run: &[u32], text: &[u8], n: usize)
    requires { (width * n ≤ length run.now) × RecordsFit text.now (givens run.now n 0) 0 (length out.old) }
    ensures { out.new ≡ sets out.old 0 (section_bytes (map (block_by_row text.now) (givens run.now n 0))) }
{
    let mut p: usize = 0;
    for i in 0..n {
        p = put_block(out, p, text, resource_write_judge::record_at(run, i));
    }
}

/// Writes the records, whose names and data lie in `text`, into `out`; a refusal changes nothing.
pub fn write(records: &[u32], text: &[u8], out: &mut [u8]) -> Result<usize, Fault>
    ensures { (told_written result, out.new) ≡ written text.now (given records.now) out.old }
{
    let size = resource_write_judge::write_length(records, text)?;
    if out.len() < size {
        return Err(Fault::NoRoom);
    }
    put_blocks(out, records, text, records.len() / WIDTH);
    Ok(size)
}
