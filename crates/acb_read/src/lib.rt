// ACB colour books: a file's records one after the other, into a lent table, and by their numbers.
#![tactic(auto)]

ghost use Rattle.std.specs.Prelude.{◌≡◌, ◌∷◌, [], map, ◌+◌, ◌*◌, ◌^◌, ◌≤◌, ◌<◌, length};
ghost use Rattle.std.proofs.lemmas.List.Edits.{sets};
ghost use Rattle.algebra.specs.Numbers.{joined};
ghost use Rattle.algebra.specs.Reader.{limit};
ghost use Rattle.algebra.specs.Table.{accepted, refused, filled, record_at};
ghost use Rattle.acb.specs.Reading.{acb};
ghost use Rattle.colour.specs.Inks.{ink_number};
ghost use Rattle.acb.specs.Row.{width, numbers, taken, tag_ink, stated, records_of};
ghost use Rattle.acb_judge.specs.Answer.{report, told, told_tag};
ghost use Rattle.acb_read.specs.Table.{entries_of, blank, name_bytes_in};
ghost use Rattle.acb_read.specs.Answer.{record_places, told_given, told_record, told_record_step, places};
ghost use Rattle.acb_read.specs.Walked.{step, passed, given_in, walked};
ghost use Rattle.acb_read.specs.scaffold.Parts.{fourth_at, whole_at, Named};

use acb::WIDTH;
use acb_judge::Book;
use colour::Ink;
use fault::{Fault, Refusal};
use names::Name;

/// A record: its code, its components, 0 in the place that its space does not use, where its name
/// lies, and its ink, not stated where the closing tag is not known.
#[derive(Clone, Copy)]
pub struct BookRecord {
    pub code: [u8; 6],
    pub components: [u8; 4],
    pub name: Name,
    pub ink: Ink,
}

/// A record, or that none stands there, and the place behind it.
#[derive(Clone, Copy)]
pub struct RecordStep {
    pub swatch: Result<BookRecord, Refusal>,
    pub next: usize,
}

// ---- records one after the other

// No record stands at `at`.
fn lost(at: usize) -> RecordStep
    ensures { told_record_step result ≡ (record_places (refused 5 0 0 0), at) }
{
    RecordStep {
        swatch: Err(Refusal(Fault::OutOfRange, 0)),
        next: at,
    }
}

// The fourth component of the record whose code stands at `code`; 0 where it has three.
fn fourth_at(file: &[u8], code: usize, n: usize) -> u8
    requires { code + 6 + n ≤ length file.now }
    ensures { result ≡ fourth_at n file.now code }
{
    if n == 4 {
        return file[code + 9];
    }
    0
}

// The record of n components whose name has so many units from `first` on, which is whole, and the
// place behind it.
fn whole_at(file: &[u8], first: usize, units: u32, n: usize) -> (BookRecord, usize)
    requires { (3 ≤ n) × (first + 2 * units + 6 + n ≤ length file.now) }
    ensures { (places (accepted (told_given result.0)), result.1) ≡ whole_at n file.now first units }
{
    let code = first + 2 * (units as usize);
    let last = fourth_at(file, code, n);
    let swatch = BookRecord {
        code: [
            file[code],
            file[code + 1],
            file[code + 2],
            file[code + 3],
            file[code + 4],
            file[code + 5],
        ],
        components: [file[code + 6], file[code + 7], file[code + 8], last],
        name: Name { first, units },
        ink: Ink::NotStated,
    };
    (swatch, code + 6 + n)
}

// Where the name of the record at `at` lies, if the record is whole.
fn name_of(file: &[u8], at: usize, space: u16) -> Option<Name>
    ensures { Named space file.now at result }
{
    let Ok((units, first)) = fields::number_at::<u32>(file, at) else {
        return None;
    };
    let n = acb_judge::components_of(space);
    let left = file.len() - first;
    if left < 6 + n {
        return None;
    }
    if (left - (6 + n)) / 2 < units as usize {
        return None;
    }
    Some(Name { first, units })
}

/// The record at `at` of a book of a space, and the place behind it; 5 and the place itself where no
/// whole record stands there.
pub fn step_at(file: &[u8], at: usize, space: u16) -> RecordStep
    ensures { told_record_step result ≡ step space file.now at }
{
    match name_of(file, at, space) {
        Some(name) => {
            let n = acb_judge::components_of(space);
            let (swatch, next) = whole_at(file, name.first, name.units, n);
            RecordStep {
                swatch: Ok(swatch),
                next,
            }
        }
        None => lost(at),
    }
}

/// The units of the name of the record at `at`, and the place behind it; no units and the place itself
/// where no whole record stands there. A loop that needs no more of its records goes by this: it makes
/// none of them.
pub fn units_at(file: &[u8], at: usize, space: u16) -> (u32, usize)
    ensures units { result.0 ≡ (given_in (step space file.now at).0).name.1 }
    ensures next { result.1 ≡ (step space file.now at).1 }
{
    match name_of(file, at, space) {
        Some(name) => {
            let n = acb_judge::components_of(space);
            let code = name.first + 2 * (name.units as usize);
            (name.units, code + 6 + n)
        }
        None => (0, at),
    }
}

/// The place behind i records from `at`.
pub fn place_at(file: &[u8], at: usize, space: u16, i: usize) -> usize
    ensures { result ≡ passed space file.now at i }
{
    let mut p = at;
    for _k in 0..i {
        p = units_at(file, p, space).1;
    }
    p
}

// ---- the table

// Zeros, and a name at place 0 without units.
const NONE: BookRecord = BookRecord {
    code: [0; 6],
    components: [0; 4],
    name: Name { first: 0, units: 0 },
    ink: Ink::Global,
};

/// The record of a step; zeros, and a name at place 0 without units, where none stands there.
pub fn given(swatch: Result<BookRecord, Refusal>) -> BookRecord
    ensures { told_given result ≡ given_in (told_record swatch) }
{
    swatch.unwrap_or(NONE)
}

// Stores the numbers of a row; no other function stores one.
fn put_numbers(table: &mut [u32], to: usize, row: [u32; 13])
    requires { to + width ≤ length table.old }
    ensures { table.new ≡ sets table.old to row }
{
    for i in 0..WIDTH {
        table[to + i] = row[i];
    }
}

// Stores a record as a row, with an ink.
fn put_row(table: &mut [u32], to: usize, given: BookRecord, ink: Ink)
    requires { (to + width ≤ length table.old) × (given.name.first < 2 ^ 32) }
    ensures { table.new ≡ sets table.old to (numbers (stated (ink_number ink) (told_given given))) }
{
    let code = given.code;
    let ks = given.components;
    let row = [
        given.name.first as u32,
        given.name.units,
        u32::from(code[0]),
        u32::from(code[1]),
        u32::from(code[2]),
        u32::from(code[3]),
        u32::from(code[4]),
        u32::from(code[5]),
        u32::from(ks[0]),
        u32::from(ks[1]),
        u32::from(ks[2]),
        u32::from(ks[3]),
        ink.number(),
    ];
    put_numbers(table, to, row);
}

// Stores the record at `at` as a row, with an ink, and answers the place behind it. Each case stores its
// own row: a record that is made in one of two cases and stored behind both is packed and taken apart.
fn put_at(table: &mut [u32], to: usize, file: &[u8], at: usize, space: u16, ink: Ink) -> usize
    requires { (length file.now ≤ limit) × (to + width ≤ length table.old) }
    ensures table { table.new ≡ sets table.old to (numbers (stated (ink_number ink) (given_in (step space file.now at).0))) }
    ensures next { result ≡ (step space file.now at).1 }
{
    match name_of(file, at, space) {
        Some(name) => {
            let n = acb_judge::components_of(space);
            let (record, next) = whole_at(file, name.first, name.units, n);
            put_row(table, to, record, ink);
            next
        }
        None => {
            put_row(table, to, NONE, ink);
            at
        }
    }
}

// Stores the records of a book.
fn fill(file: &[u8], book: Book, table: &mut [u32])
    requires { (length file.now ≤ limit) × (width * book.count ≤ length table.old) }
    ensures { table.new ≡ sets table.old 0 (joined numbers (map (stated (ink_number (tag_ink (told_tag book.tag)))) (walked book.header.space file.now book.first book.count))) }
{
    let ink = acb_judge::ink_of(book.tag);
    let mut at = book.first;
    for i in 0..book.count {
        at = put_at(table, WIDTH * i, file, at, book.header.space, ink);
    }
}

/// Reads a file into a table, which a refusal leaves as it was. `count` in `Book` counts the rows.
pub fn read(file: &[u8], table: &mut [u32]) -> Result<Book, Refusal>
    ensures { (told result, table.new) ≡ filled width numbers records_of report (acb file.now) table.old }
{
    let book = acb_judge::judge(file)?;
    if table.len() / WIDTH < book.count {
        return Err(Refusal(Fault::NoRoom, 0));
    }
    fill(file, book, table);
    Ok(book)
}

// ---- a record by its number

/// Record i of a file.
pub fn record_at(file: &[u8], i: usize) -> Result<BookRecord, Refusal>
    ensures { told_record result ≡ places (record_at records_of (taken []) i (acb file.now)) }
{
    let book = acb_judge::judge(file)?;
    if book.count <= i {
        return Err(Refusal(Fault::NoRecord, 0));
    }
    let space = book.header.space;
    let at = place_at(file, book.first, space, i);
    let swatch = step_at(file, at, space).swatch?;
    Ok(BookRecord {
        ink: acb_judge::ink_of(book.tag),
        ..swatch
    })
}

/// The bytes of the name of record i, a part of the file; none where `record_at` refuses.
pub fn name_at(file: &[u8], i: usize) -> &[u8]
    ensures { result.now ≡ name_bytes_in file.now (record_at entries_of blank i (acb file.now)) }
{
    match record_at(file, i) {
        Ok(swatch) => {
            let first = swatch.name.first;
            let end = first + 2 * (swatch.name.units as usize);
            &file[first..end]
        }
        Err(_) => &file[..0],
    }
}
