// ACO swatches: the records of a run of numbers, judged as the reader would judge the file made of them.
#![tactic(auto)]

ghost use Rattle.std.specs.Prelude.{◌≡◌, true, ◌+◌, ◌*◌, ◌≤◌, ◌<◌, leb, length, get_or};
ghost use Rattle.algebra.specs.Reader.{pick, limit};
ghost use Rattle.algebra.specs.Faults.{faults};
ghost use Rattle.algebra.specs.Table.{row_at, rows, whole};
ghost use Rattle.aco.specs.Faults.{space_fault, sample_fault};
ghost use Rattle.aco.specs.Row.{width, taken, empty_record};
ghost use Rattle.aco_writing.specs.Writing.{size, ink_fault, needed};
ghost use Rattle.aco_write_judge.specs.scaffold.Parts.{told_record, told_fault, colour_fault, name_fault};
ghost use Rattle.algebra.specs.Writing.{bytes, refused};
ghost use Rattle.fault.specs.Answer.{told_written};

use aco::WIDTH;
use colour::Ink;
use fault::{Fault, Refusal};

/// A record of a run: its space, its samples, where its name lies, and its ink.
#[derive(Clone, Copy, Debug, PartialEq, Eq)]
pub struct Record {
    pub space: u32,
    pub samples: [u32; 4],
    pub first: u32,
    pub units: u32,
    pub ink: u32,
}

// Number j of a row, or 0 where it has no such number.
fn number_at(row: &[u32], j: usize) -> u32
    ensures { result ≡ get_or row.now j 0 }
{
    row.get(j).copied().unwrap_or(0)
}

/// The record of a row. Lent a row of known length, it makes no test.
pub fn record_of(row: &[u32]) -> Record
    ensures { told_record result ≡ taken row.now }
{
    Record {
        space: number_at(row, 0),
        samples: [
            number_at(row, 1),
            number_at(row, 2),
            number_at(row, 3),
            number_at(row, 4),
        ],
        first: number_at(row, 5),
        units: number_at(row, 6),
        ink: number_at(row, 7),
    }
}

// Record k of a run that has it.
fn whole_at(run: &[u32], k: usize) -> Record
    requires { width * k + width ≤ length run.now }
    ensures { told_record result ≡ taken (row_at width run.now k) }
{
    let start = WIDTH * k;
    let end = start + WIDTH;
    record_of(&run[start..end])
}

// What a run gives for a record that it does not have whole.
const NO_RECORD: Record = Record {
    space: 0,
    samples: [0; 4],
    first: 0,
    units: 0,
    ink: 0,
};

/// Record k of a run, all zeros where the run does not have it whole.
pub fn record_at(run: &[u32], k: usize) -> Record
    ensures { told_record result ≡ get_or (whole width taken run.now) k empty_record }
{
    if run.len() / WIDTH <= k {
        return NO_RECORD;
    }
    whole_at(run, k)
}

// ---- judging

fn judge_space(x: u32) -> Result<(), Fault>
    ensures { told_fault result ≡ space_fault x }
{
    if 65535 < x {
        return Err(Fault::Unknown);
    }
    if colour::is_known(x as u16) {
        return Ok(());
    }
    Err(Fault::Unknown)
}

// Sample k of a colour of a known space.
fn judge_sample(x: u32, k: u16, v: u32) -> Result<(), Fault>
    requires { x ≤ 65535 }
    ensures { told_fault result ≡ sample_fault x k v }
{
    if 65535 < v {
        return Err(Fault::OutOfRange);
    }
    if colour::is_allowed(x as u16, k, v as u16) {
        return Ok(());
    }
    Err(Fault::OutOfRange)
}

// A record's colour, field by field: its space, then its samples in order.
fn judge_fields(given: Record) -> Result<(), Fault>
    ensures { told_fault result ≡ colour_fault (told_record given) }
{
    judge_space(given.space)?;
    judge_sample(given.space, 0, given.samples[0])?;
    judge_sample(given.space, 1, given.samples[1])?;
    judge_sample(given.space, 2, given.samples[2])?;
    judge_sample(given.space, 3, given.samples[3])
}

// Whether a record's colour fits its fields and has no fault.
fn is_sound(given: Record) -> bool
    ensures { result ≡ true → colour_fault (told_record given) ≡ 0 }
{
    if 65535 < given.space {
        return false;
    }
    if 65535 < given.samples[0] {
        return false;
    }
    if 65535 < given.samples[1] {
        return false;
    }
    if 65535 < given.samples[2] {
        return false;
    }
    if 65535 < given.samples[3] {
        return false;
    }
    colour::is_sound(
        given.space as u16,
        given.samples[0] as u16,
        given.samples[1] as u16,
        given.samples[2] as u16,
        given.samples[3] as u16,
    )
}

// A record's colour. Nearly all are sound, and only another is looked into.
fn judge_colour(given: Record) -> Result<(), Fault>
    ensures { told_fault result ≡ colour_fault (told_record given) }
{
    if is_sound(given) {
        return Ok(());
    }
    judge_fields(given)
}

// The n colours.
fn judge_colours(run: &[u32], n: usize) -> Result<(), Fault>
    requires { width * n ≤ length run.now }
    ensures { told_fault result ≡ faults colour_fault (rows width taken run.now n 0) }
{
    for i in 0..n {
        judge_colour(whole_at(run, i))?;
    }
    Ok(())
}

// A record's name.
fn judge_name(text: &[u8], given: Record) -> Result<(), Fault>
    ensures { told_fault result ≡ name_fault text.now (told_record given) }
{
    match names::text_at(text, given.first as usize, given.units) {
        Ok(_) => Ok(()),
        Err(Refusal(fault, _)) => Err(fault),
    }
}

// The n names.
fn judge_names(run: &[u32], text: &[u8], n: usize) -> Result<(), Fault>
    requires { width * n ≤ length run.now }
    ensures { told_fault result ≡ faults (name_fault text.now) (rows width taken run.now n 0) }
{
    for i in 0..n {
        judge_name(text, whole_at(run, i))?;
    }
    Ok(())
}

// A record's ink: a file does not state one.
fn judge_ink(given: Record) -> Result<(), Fault>
    ensures { told_fault result ≡ ink_fault (told_record given) }
{
    if given.ink == Ink::NotStated.number() {
        return Ok(());
    }
    Err(Fault::NoCounterpart)
}

// The n inks.
fn judge_inks(run: &[u32], n: usize) -> Result<(), Fault>
    requires { width * n ≤ length run.now }
    ensures { told_fault result ≡ faults ink_fault (rows width taken run.now n 0) }
{
    for i in 0..n {
        judge_ink(whole_at(run, i))?;
    }
    Ok(())
}

// How many bytes the n records take. It stops at the limit, so that no sum passes 64 bits.
fn size_of(run: &[u32], n: usize) -> Result<usize, Fault>
    requires { width * n ≤ length run.now }
    ensures { told_written result ≡ pick (leb (size (rows width taken run.now n 0)) limit) (bytes (size (rows width taken run.now n 0))) (refused 1 0) }
{
    let mut total: usize = 8;
    for i in 0..n {
        let given = whole_at(run, i);
        total += 26 + 2 * (given.units as usize);
        if aco::LIMIT < total {
            return Err(Fault::TooLong);
        }
    }
    Ok(total)
}

/// The exact length that writing needs, or the refusal.
pub fn write_length(records: &[u32], text: &[u8]) -> Result<usize, Fault>
    ensures { told_written result ≡ needed text.now (whole width taken records.now) }
{
    let n = records.len() / WIDTH;
    let size = size_of(records, n)?;
    if (aco::MOST as usize) < n {
        return Err(Fault::OutOfRange);
    }
    judge_colours(records, n)?;
    judge_names(records, text, n)?;
    judge_inks(records, n)?;
    Ok(size)
}
