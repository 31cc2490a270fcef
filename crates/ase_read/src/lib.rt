// ASE palettes: a file's records into a lent table, and a record by its number.
#![tactic(auto)]

ghost use Rattle.std.specs.Prelude.{◌≡◌, ◌∷◌, [], ◌+◌, ◌-◌, ◌*◌, ◌^◌, ◌≤◌, ◌<◌, min, eqb, leb, length};
ghost use Rattle.std.proofs.lemmas.List.Edits.{sets};
ghost use Rattle.algebra.specs.Numbers.{joined};
ghost use Rattle.algebra.specs.Reader.{pick, limit};
ghost use Rattle.algebra.specs.Table.{accepted};
ghost use Rattle.colour.specs.Inks.{ink_number};
ghost use Rattle.colour.specs.declared.ink.Ink.TheVariants.{NotStated};
ghost use Rattle.ase.specs.Reading.{ase};
ghost use Rattle.ase.specs.Row.{width, numbers, given_in, colour_row};
ghost use Rattle.ase_judge.specs.Answer.{told};
ghost use Rattle.ase_read.specs.Table.{row, filled, record_at, name_bytes_in, entries_of};
ghost use Rattle.ase_read.specs.scaffold.Raw.{next_block, block_place, loaded, raw_row, Accepted};
ghost use Rattle.ase_read.specs.Answer.{shown_colour, shown, told_record};
ghost use Rattle.ase_read.specs.scaffold.Answer.{IsColour};

use ase::{GROUP_END, GROUP_START, RowNumbers, WIDTH};
use ase_judge::Counts;
use colour::{Channels, Ink};
use fault::{Fault, Refusal};

// The length of the heading.
const HEADING: usize = 12;

// The types of a block, as a row has them.
const START: u32 = GROUP_START as u32;

const STOP: u32 = GROUP_END as u32;

/// A colour: its name's place and number of units, its channels and its ink.
#[derive(Clone, Copy)]
pub struct NamedColour {
    pub place: usize,
    pub units: u32,
    pub colour: Channels,
    pub ink: Ink,
}

/// A record: a group start with its name's place and number of units, a group end, or a colour.
#[derive(Clone, Copy)]
pub enum Record {
    GroupStart { place: usize, units: u32 },
    GroupEnd,
    Colour(NamedColour),
}

// The place behind the block at `at`.
fn block_end(file: &[u8], at: usize) -> usize
    requires { (next_block file.now at ≤ length file.now) × (length file.now ≤ limit) }
    ensures { result ≡ next_block file.now at }
{
    let length = fields::number_or_zero::<u32>(file, at + 2);
    at + 6 + length as usize
}

/// The place of the name of the block at `at`, by the count of its units; 0 where the block has no
/// name, and the largest number where the name's place is past that.
pub fn name_place(count: u16, at: usize) -> usize
    ensures { (result ≡ pick (eqb count 0) 0 (min (at + 8) (2 ^ 64 - 1))) × (result ≤ at + 8) }
{
    if count == 0 {
        return 0;
    }
    at.saturating_add(8)
}

// The block from `at` to the end of `part`: what a shorter payload does not have is 0.
fn numbers_in(part: &[u8], at: usize) -> RowNumbers
    requires { (at + 6 ≤ length part.now) × (length part.now ≤ limit) }
    ensures { given_in result ≡ loaded part.now at }
{
    let block = fields::number_or_zero::<u16>(part, at);
    let count = fields::number_or_zero::<u16>(part, at + 6);
    let model = at + 8 + 2 * count as usize;
    RowNumbers {
        block: block as u32,
        first: name_place(count, at) as u32,
        units: count.saturating_sub(1) as u32,
        model: fields::number_or_zero::<u32>(part, model),
        channel0: fields::number_or_zero::<u32>(part, model + 4),
        channel1: fields::number_or_zero::<u32>(part, model + 8),
        channel2: fields::number_or_zero::<u32>(part, model + 12),
        channel3: fields::number_or_zero::<u32>(part, model + 16),
        ink: fields::number_or_zero::<u16>(part, part.len() - 2) as u32,
    }
}

// Stores a row; no other function stores one. The stores stand by themselves, so that their proof
// knows of nothing else.
fn put_numbers(table: &mut [u32], to: usize, row: RowNumbers)
    requires { to + width ≤ length table.old }
    ensures { table.new ≡ sets table.old to (numbers (given_in row)) }
{
    table[to] = row.block;
    table[to + 1] = row.first;
    table[to + 2] = row.units;
    table[to + 3] = row.model;
    table[to + 4] = row.channel0;
    table[to + 5] = row.channel1;
    table[to + 6] = row.channel2;
    table[to + 7] = row.channel3;
    table[to + 8] = row.ink;
}

// Stores the row of the block from `at` to `end`. All is loaded and only then stored, which compilers
// join.
fn put_row(file: &[u8], at: usize, end: usize, table: &mut [u32], to: usize)
    requires { (at + 6 ≤ end) × (end ≤ length file.now) × (length file.now ≤ limit) × (to + width ≤ length table.old) }
    ensures { table.new ≡ sets table.old to (raw_row file.now at end) }
{
    let row = numbers_in(&file[..end], at);
    put_numbers(table, to, row);
}

// Stores the n records of an accepted file.
fn fill(file: &[u8], n: usize, table: &mut [u32])
    requires { Accepted (ase file.now) n × (width * n ≤ length table.old) }
    ensures { table.new ≡ sets table.old 0 (joined row (entries_of (ase file.now))) }
{
    let mut at = HEADING;
    for i in 0..n {
        let end = block_end(file, at);
        put_row(file, at, end, table, WIDTH * i);
        at = end;
    }
}

// The place of block i of an accepted file, which has it.
fn block_place(file: &[u8], n: usize, i: usize) -> usize
    requires { Accepted (ase file.now) n × (i < n) }
    ensures { result ≡ block_place file.now i }
{
    let mut at = HEADING;
    for _k in 0..i {
        at = block_end(file, at);
    }
    at
}

/// The ink with a number; not stated for a number that no ink has.
pub fn ink_of(number: u32) -> Ink
    ensures { ink_number result ≡ pick (leb number 4) number (ink_number NotStated) }
{
    Ink::from(number).unwrap_or(Ink::NotStated)
}

// A colour by its numbers, which are judged.
fn coloured(row: RowNumbers) -> NamedColour
    requires { IsColour row.model row.channel0 row.channel1 row.channel2 row.channel3 × (row.ink ≤ 2) }
    ensures { shown_colour result ≡ colour_row row.first row.units row.model (row.channel0 ∷ row.channel1 ∷ row.channel2 ∷ row.channel3 ∷ []) row.ink }
{
    let colour = Channels::from_tag(
        row.model,
        row.channel0,
        row.channel1,
        row.channel2,
        row.channel3,
    )
    .unwrap();
    NamedColour {
        place: row.first as usize,
        units: row.units,
        colour,
        ink: ink_of(row.ink),
    }
}

// Record i of an accepted file, which has it.
fn found(file: &[u8], n: usize, i: usize) -> Record
    requires { Accepted (ase file.now) n × (i < n) }
    ensures { accepted (shown result) ≡ record_at i (ase file.now) }
{
    let at = block_place(file, n, i);
    let end = block_end(file, at);
    let row = numbers_in(&file[..end], at);
    match row.block {
        START => Record::GroupStart {
            place: row.first as usize,
            units: row.units,
        },
        STOP => Record::GroupEnd,
        _ => Record::Colour(coloured(row)),
    }
}

/// Reads a file into a table, which a refusal leaves as it was.
pub fn read(file: &[u8], table: &mut [u32]) -> Result<Counts, Refusal>
    ensures { (told result, table.new) ≡ filled (ase file.now) table.old }
{
    let counts = ase_judge::judge(file)?;
    if table.len() < WIDTH * counts.blocks {
        return Err(Refusal(Fault::NoRoom, 0));
    }
    fill(file, counts.blocks, table);
    Ok(counts)
}

/// Record i of a file.
pub fn record_at(file: &[u8], i: usize) -> Result<Record, Refusal>
    ensures { told_record result ≡ record_at i (ase file.now) }
{
    let counts = ase_judge::judge(file)?;
    if counts.blocks <= i {
        return Err(Refusal(Fault::NoRecord, 0));
    }
    Ok(found(file, counts.blocks, i))
}

/// The bytes of the name of record i, a part of the file; none where it has no name, and where
/// `record_at` refuses.
pub fn name_at(file: &[u8], i: usize) -> &[u8]
    ensures { result.now ≡ name_bytes_in file.now (record_at i (ase file.now)) }
{
    match record_at(file, i) {
        Ok(Record::GroupStart { place, units }) => &file[place..place + 2 * units as usize],
        Ok(Record::GroupEnd) => &file[..0],
        Ok(Record::Colour(colour)) => &file[colour.place..colour.place + 2 * colour.units as usize],
        Err(_) => &file[..0],
    }
}
