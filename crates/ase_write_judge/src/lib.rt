// ASE palettes: the records of a run of numbers, judged as the reader would judge the file made of them.
#![tactic(auto)]

ghost use Rattle.std.specs.Prelude.{◌≡◌, ◌+◌, ◌*◌, ◌≤◌, ◌<◌, leb, length, get_or};
ghost use Rattle.algebra.specs.Reader.{pick, limit};
ghost use Rattle.algebra.specs.Faults.{faults};
ghost use Rattle.algebra.specs.Table.{row_at, rows, whole};
ghost use Rattle.algebra.specs.Writing.{bytes, refused};
ghost use Rattle.colour.specs.Models.{channels_of};
ghost use Rattle.fault.specs.Answer.{told_written};
ghost use Rattle.ase.specs.Faults.{blocks_fault};
ghost use Rattle.ase.specs.Reading.{deepest};
ghost use Rattle.ase.specs.Row.{width, taken, given_in, empty_record};
ghost use Rattle.ase_writing.specs.Writing.{block_by_row, size_within, size, found_in, block_fault, ink_fault, needed};
ghost use Rattle.ase_write_judge.specs.scaffold.Parts.{told_fault, name_fault, after_name_fault, type_fault, open_after_type};

use ase::{RowNumbers, WIDTH};
use colour::{Ink, Model};
use fault::Fault;

// The types of a block, as a run has them.
const START: u32 = ase::GROUP_START as u32;

const STOP: u32 = ase::GROUP_END as u32;

const COLOUR: u32 = ase::COLOUR as u32;

// How many groups may stand open.
const DEEPEST: u32 = ase::DEEPEST as u32;

// The record that a row gives; nothing else takes numbers out of one.
fn taken_from(row: &[u32]) -> RowNumbers
    requires { length row.now ≡ width }
    ensures { given_in result ≡ taken row.now }
{
    RowNumbers {
        block: row[0],
        first: row[1],
        units: row[2],
        model: row[3],
        channel0: row[4],
        channel1: row[5],
        channel2: row[6],
        channel3: row[7],
        ink: row[8],
    }
}

// Record k of a run that has it.
fn whole_at(run: &[u32], k: usize) -> RowNumbers
    requires { width * k + width ≤ length run.now }
    ensures { given_in result ≡ taken (row_at width run.now k) }
{
    let at = WIDTH * k;
    taken_from(&run[at..at + WIDTH])
}

fn no_record() -> RowNumbers
    ensures { given_in result ≡ empty_record }
{
    RowNumbers {
        block: 0,
        first: 0,
        units: 0,
        model: 0,
        channel0: 0,
        channel1: 0,
        channel2: 0,
        channel3: 0,
        ink: 0,
    }
}

/// Record k of a run, all zeros where the run does not have it whole.
pub fn record_at(run: &[u32], k: usize) -> RowNumbers
    ensures { given_in result ≡ get_or (whole width taken run.now) k empty_record }
{
    if run.len() / WIDTH <= k {
        return no_record();
    }
    whole_at(run, k)
}

// ---- how long the file is

/// How many channels the model with a tag has.
pub fn channels_of(tag: u32) -> usize
    ensures { (result ≡ channels_of tag) × (result ≤ 4) }
{
    match Model::from_tag(tag) {
        Some(model) => model.traits().channels as usize,
        None => 0,
    }
}

/// How many bytes a record takes.
pub fn size_in(given: RowNumbers) -> usize
    ensures { (result ≡ size_within (given_in given)) × (result < 0x3_0000_0000) }
{
    match given.block {
        START => 10 + 2 * given.units as usize,
        COLOUR => 16 + 2 * given.units as usize + 4 * channels_of(given.model),
        _ => 6,
    }
}

// How many bytes the n records take. It stops at the limit, so that no sum passes 64 bits.
fn size_of(run: &[u32], n: usize) -> Result<usize, Fault>
    requires { width * n ≤ length run.now }
    ensures { told_written result ≡ pick (leb (size (rows width taken run.now n 0)) limit) (bytes (size (rows width taken run.now n 0))) (refused 1 0) }
{
    let mut total: usize = 12;
    for i in 0..n {
        total += size_in(whole_at(run, i));
        if ase::LIMIT < total {
            return Err(Fault::TooLong);
        }
    }
    Ok(total)
}

// ---- judging

// The fault of a name.
fn name_fault(text: &[u8], given: RowNumbers) -> Result<(), Fault>
    ensures { told_fault result ≡ name_fault text.now (given_in given) }
{
    if 65534 < given.units {
        return Err(Fault::OutOfRange);
    }
    match names::text_at(text, given.first as usize, given.units) {
        Ok(_) => Ok(()),
        Err(e) => Err(e.0),
    }
}

// The fault of what stands behind a colour's name: its model, its channels, its ink.
fn after_name_fault(given: RowNumbers) -> Result<(), Fault>
    ensures { told_fault result ≡ after_name_fault (given_in given) }
{
    let Some(model) = Model::from_tag(given.model) else {
        return Err(Fault::Unknown);
    };
    if !model.allows_all(
        given.channel0,
        given.channel1,
        given.channel2,
        given.channel3,
    ) {
        return Err(Fault::OutOfRange);
    }
    if 4 < given.ink {
        return Err(Fault::OutOfRange);
    }
    Ok(())
}

// The fault of a block's type, where `depth` groups stand open.
fn type_fault(depth: u32, block: u32) -> Result<(), Fault>
    ensures { told_fault result ≡ type_fault depth block }
{
    match block {
        START => {
            if DEEPEST <= depth {
                return Err(Fault::TooDeep);
            }
            Ok(())
        }
        STOP => {
            if depth == 0 {
                return Err(Fault::Unbalanced);
            }
            Ok(())
        }
        COLOUR => Ok(()),
        _ => Err(Fault::Unknown),
    }
}

// The fault of a record, where `depth` groups stand open.
fn block_fault(text: &[u8], depth: u32, given: RowNumbers) -> Result<(), Fault>
    ensures { told_fault result ≡ block_fault text.now depth (given_in given) }
{
    type_fault(depth, given.block)?;
    if given.block == STOP {
        return Ok(());
    }
    name_fault(text, given)?;
    if given.block == START {
        return Ok(());
    }
    after_name_fault(given)
}

// How many groups stand open after a block.
fn open_after(depth: u32, block: u32) -> u32
    requires { depth ≤ deepest }
    ensures { result ≡ open_after_type depth block }
{
    match block {
        START => depth + 1,
        STOP => depth.saturating_sub(1),
        _ => depth,
    }
}

// The first fault of the n records, and of a group that is left open.
fn blocks_fault(run: &[u32], text: &[u8], n: usize) -> Result<(), Fault>
    requires { width * n ≤ length run.now }
    ensures { told_fault result ≡ blocks_fault (found_in text.now) (block_by_row text.now) 0 (rows width taken run.now n 0) }
{
    let mut depth: u32 = 0;
    for i in 0..n {
        let given = whole_at(run, i);
        block_fault(text, depth, given)?;
        depth = open_after(depth, given.block);
    }
    if depth != 0 {
        return Err(Fault::Unbalanced);
    }
    Ok(())
}

// The fault of a record's ink: the file has no number for process and for not stated. A group has
// no ink, and its place is not looked at.
fn ink_fault(given: RowNumbers) -> Result<(), Fault>
    ensures { told_fault result ≡ ink_fault (given_in given) }
{
    if given.block != COLOUR {
        return Ok(());
    }
    if given.ink == Ink::Process.number() {
        return Err(Fault::NoCounterpart);
    }
    if given.ink == Ink::NotStated.number() {
        return Err(Fault::NoCounterpart);
    }
    Ok(())
}

// The first fault of the n records' inks.
fn inks_fault(run: &[u32], n: usize) -> Result<(), Fault>
    requires { width * n ≤ length run.now }
    ensures { told_fault result ≡ faults ink_fault (rows width taken run.now n 0) }
{
    for i in 0..n {
        ink_fault(whole_at(run, i))?;
    }
    Ok(())
}

/// The exact length that writing needs, or the refusal.
pub fn write_length(records: &[u32], text: &[u8]) -> Result<usize, Fault>
    ensures { told_written result ≡ needed text.now (whole width taken records.now) }
{
    let n = records.len() / WIDTH;
    let size = size_of(records, n)?;
    blocks_fault(records, text, n)?;
    inks_fault(records, n)?;
    Ok(size)
}
