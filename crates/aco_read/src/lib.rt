// ACO swatches: a file's records into a lent table, and a record by its number.
#![tactic(auto)]

ghost use Rattle.std.specs.Prelude.{◌≡◌, ◌+◌, ◌*◌, ◌≤◌, ◌<◌, leb, length};
ghost use Rattle.std.proofs.lemmas.List.Edits.{sets};
ghost use Rattle.algebra.specs.Numbers.{joined};
ghost use Rattle.algebra.specs.Filling.{Accepted};
ghost use Rattle.aco.specs.Reading.{aco, zero_colour};
ghost use Rattle.aco.specs.scaffold.Raw.{raw_colour};
ghost use Rattle.aco.specs.Places.{entry_place};
ghost use Rattle.aco.specs.Row.{width, numbers, named_with, row};
ghost use Rattle.aco_judge.specs.Answer.{told, report};
ghost use Rattle.aco_read.specs.Table.{filled, record_at, by_value, name_bytes_in, records_of, colour_or_zero};
ghost use Rattle.aco_read.specs.Answer.{told_record, told_swatch};

use aco::WIDTH;
use aco_judge::{Counts, Rejection};
use colour::{Colour, Ink};
use fault::{Fault, Refusal};
use names::Name;

/// A record: its colour, where its name lies in the file, and its ink.
#[derive(Clone, Copy)]
pub struct SwatchRecord {
    pub colour: Colour,
    pub name: Name,
    pub ink: Ink,
}

// The colour in the ten bytes from `at`, which are there. A part of known length is loaded from without tests.
fn colour_in(file: &[u8], at: usize) -> Colour
    requires { at + 10 ≤ length file.now }
    ensures { result ≡ raw_colour file.now at }
{
    let end = at + 10;
    let part = &file[at..end];
    let space = fields::number_or_zero::<u16>(part, 0);
    let a = fields::number_or_zero::<u16>(part, 2);
    let b = fields::number_or_zero::<u16>(part, 4);
    let c = fields::number_or_zero::<u16>(part, 6);
    let d = fields::number_or_zero::<u16>(part, 8);
    Colour {
        space,
        samples: [a, b, c, d],
    }
}

// Whether ten bytes stand at `at`.
fn is_there(file: &[u8], at: usize) -> bool
    ensures { result ≡ leb (at + 10) (length file.now) }
{
    let n = file.len();
    if n < 10 {
        return false;
    }
    at <= n - 10
}

// The colour where there is none.
const NO_COLOUR: Colour = Colour {
    space: 0,
    samples: [0; 4],
};

/// The colour in the ten bytes from `at`, as it stands there; all zeros where they are not there.
pub fn colour_at(file: &[u8], at: usize) -> Colour
    ensures { result ≡ colour_or_zero file.now at }
{
    if !is_there(file, at) {
        return NO_COLOUR;
    }
    colour_in(file, at)
}

// Stores a record's numbers from `to`; a file does not state an ink. No other function stores one.
fn put_row(table: &mut [u32], to: usize, colour: Colour, place: u32, units: u32)
    requires { to + width ≤ length table.old }
    ensures { table.new ≡ sets table.old to (numbers (named_with colour place units)) }
{
    table[to] = colour.space as u32;
    table[to + 1] = colour.samples[0] as u32;
    table[to + 2] = colour.samples[1] as u32;
    table[to + 3] = colour.samples[2] as u32;
    table[to + 4] = colour.samples[3] as u32;
    table[to + 5] = place;
    table[to + 6] = units;
    table[to + 7] = Ink::NotStated.number();
}

// Stores the n records of a file of one list.
fn fill_plain(file: &[u8], n: usize, table: &mut [u32])
    requires { Accepted report (aco file.now) (n, 1) × (width * n ≤ length table.old) }
    ensures { table.new ≡ sets table.old 0 (joined row (records_of (aco file.now))) }
{
    for i in 0..n {
        put_row(table, WIDTH * i, colour_in(file, 4 + 10 * i), 0, 0);
    }
}

// Stores the n records of a file of two lists. The file is judged, so that a name's count is
// enough to find the next record.
fn fill_named(file: &[u8], n: usize, table: &mut [u32])
    requires { Accepted report (aco file.now) (n, 2) × (width * n ≤ length table.old) }
    ensures { table.new ≡ sets table.old 0 (joined row (records_of (aco file.now))) }
{
    let mut p = 8 + 10 * n;
    for i in 0..n {
        let count = fields::number_or_zero::<u32>(file, p + 10);
        let colour = colour_in(file, 4 + 10 * i);
        put_row(table, WIDTH * i, colour, (p + 14) as u32, count - 1);
        p += 14 + 2 * (count as usize);
    }
}

/// Reads a file into a table, which a refusal leaves as it was, and counts the rows.
pub fn read(file: &[u8], table: &mut [u32]) -> Result<Counts, Rejection>
    ensures { (told result, table.new) ≡ filled (aco file.now) table.old }
{
    let counts = aco_judge::judge(file)?;
    if table.len() < WIDTH * counts.colours {
        return Err(Rejection::Refused(Refusal(Fault::NoRoom, 0)));
    }
    if counts.lists == 1 {
        fill_plain(file, counts.colours, table);
    } else {
        fill_named(file, counts.colours, table);
    }
    Ok(counts)
}

// The place of record i of list 2.
fn entry_place(file: &[u8], n: usize, i: usize) -> usize
    requires { Accepted report (aco file.now) (n, 2) × (i < n) }
    ensures { result ≡ entry_place file.now n i }
{
    let mut place = 8 + 10 * n;
    for _k in 0..i {
        let count = fields::number_or_zero::<u32>(file, place + 10);
        place += 14 + 2 * (count as usize);
    }
    place
}

// Record i of an accepted file, which has it.
fn found(file: &[u8], counts: Counts, i: usize) -> SwatchRecord
    requires { Accepted report (aco file.now) (counts.colours, counts.lists) × (i < counts.colours) }
    ensures { told_swatch result ≡ by_value (record_at i (aco file.now)) }
{
    let colour = colour_in(file, 4 + 10 * i);
    let ink = Ink::NotStated;
    if counts.lists == 1 {
        let name = Name { first: 0, units: 0 };
        return SwatchRecord { colour, name, ink };
    }
    let p = entry_place(file, counts.colours, i);
    let count = fields::number_or_zero::<u32>(file, p + 10);
    let name = Name {
        first: p + 14,
        units: count - 1,
    };
    SwatchRecord { colour, name, ink }
}

/// Record i of a file.
pub fn record_at(file: &[u8], i: usize) -> Result<SwatchRecord, Rejection>
    ensures { told_record result ≡ by_value (record_at i (aco file.now)) }
{
    let counts = aco_judge::judge(file)?;
    if counts.colours <= i {
        return Err(Rejection::Refused(Refusal(Fault::NoRecord, 0)));
    }
    Ok(found(file, counts, i))
}

/// The bytes of the name of record i, a part of the file; none where `record_at` refuses.
pub fn name_at(file: &[u8], i: usize) -> &[u8]
    ensures { result.now ≡ name_bytes_in file.now (record_at i (aco file.now)) }
{
    match record_at(file, i) {
        Ok(swatch) => {
            let name = swatch.name;
            let end = name.first + 2 * (name.units as usize);
            &file[name.first..end]
        }
        Err(_) => &file[..0],
    }
}
