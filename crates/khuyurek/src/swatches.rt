// ACO for C.
ghost use Rattle.std.specs.Prelude.{◌≡◌};
ghost use Rattle.aco.specs.Reading.{zero_colour, aco};
ghost use Rattle.algebra.specs.Table.{refused, verdict, whole};
ghost use Rattle.aco_read.specs.Answer.{told_swatch};
ghost use Rattle.aco.specs.Row.{width, taken};
ghost use Rattle.aco_judge.specs.Answer.{report, told};
ghost use Rattle.aco_read.specs.Table.{filled, record_at, by_value};
ghost use Rattle.aco_writing.specs.Writing.{needed, written};
ghost use Rattle.khuyurek.specs.Written.{written_of, wrote_of};
ghost use Rattle.khuyurek.specs.Aco.{answer_of, placed, to_record, read_of};

use crate::{Length, exported_length};
use aco_judge::{Counts, Rejection};
use aco_read::SwatchRecord;
use fault::{Fault, Refusal};

// Number 0 is accepted, with the number of colours and of lists; else the refusal with its place,
// and for 7 the record and field.
#[repr(C)]
#[derive(Drop)]
pub struct AcoAnswer {
    pub number: u32,
    pub place: usize,
    pub rec: usize,
    pub field: usize,
    pub colours: usize,
    pub lists: usize,
}

// Number 0 is accepted, with the colour, the place of the name's first unit, its units and the
// ink; else the refusal.
#[repr(C)]
#[derive(Drop)]
pub struct AcoRecord {
    pub number: u32,
    pub units: u32,
    pub place: usize,
    pub rec: usize,
    pub field: usize,
    pub name: usize,
    pub space: u16,
    pub samples: [u16; 4],
    pub ink: u32,
}

fn exported(a: Result<Counts, Rejection>) -> AcoAnswer
    ensures { result ≡ answer_of (told a) }
{
    match a {
        Ok(counts) => AcoAnswer {
            number: 0,
            place: 0,
            rec: 0,
            field: 0,
            colours: counts.colours,
            lists: counts.lists,
        },
        Err(Rejection::Refused(Refusal(fault, place))) => AcoAnswer {
            number: fault.number(),
            place,
            rec: 0,
            field: 0,
            colours: 0,
            lists: 0,
        },
        Err(
            Rejection::Differ {
                place,
                record,
                field,
            },
        ) => AcoAnswer {
            number: Fault::ListsDiffer.number(),
            place,
            rec: record,
            field,
            colours: 0,
            lists: 0,
        },
    }
}

// Judges a file.
#[unsafe(no_mangle)]
pub extern "C" fn khuyurek_aco_judge(file: &[u8]) -> AcoAnswer
    ensures { result ≡ answer_of (verdict report (aco file.now)) }
{
    exported(aco_judge::judge(file))
}

// Reads a file into a table, eight numbers a record.
#[unsafe(no_mangle)]
pub extern "C" fn khuyurek_aco_read(file: &[u8], table: &mut [u32]) -> AcoAnswer
    ensures { (result, table.new) ≡ read_of (filled (aco file.now) table.old) }
{
    exported(aco_read::read(file, table))
}

fn found(swatch: SwatchRecord) -> AcoRecord
    ensures { result ≡ to_record (told_swatch swatch) }
{
    let samples = swatch.colour.samples;
    AcoRecord {
        number: 0,
        units: swatch.name.units,
        place: 0,
        rec: 0,
        field: 0,
        name: swatch.name.first,
        space: swatch.colour.space,
        samples,
        ink: swatch.ink.number(),
    }
}

fn missing(number: u32, place: usize, rec: usize, field: usize) -> AcoRecord
    ensures { result ≡ placed zero_colour 0 (refused number place rec field) }
{
    AcoRecord {
        number,
        units: 0,
        place,
        rec,
        field,
        name: 0,
        space: 0,
        samples: [0; 4],
        ink: 0,
    }
}

// Record i of a file.
#[unsafe(no_mangle)]
pub extern "C" fn khuyurek_aco_record_at(file: &[u8], i: usize) -> AcoRecord
    ensures { result ≡ to_record (by_value (record_at i (aco file.now))) }
{
    match aco_read::record_at(file, i) {
        Ok(swatch) => found(swatch),
        Err(Rejection::Refused(Refusal(fault, place))) => missing(fault.number(), place, 0, 0),
        Err(
            Rejection::Differ {
                place,
                record,
                field,
            },
        ) => missing(Fault::ListsDiffer.number(), place, record, field),
    }
}

// How many bytes writing these records takes.
#[unsafe(no_mangle)]
pub extern "C" fn khuyurek_aco_length(records: &[u32], text: &[u8]) -> Length
    ensures { result ≡ written_of (needed text.now (whole width taken records.now)) }
{
    exported_length(aco_write_judge::write_length(records, text))
}

// Writes records, whose names lie in `text`, into `out`.
#[unsafe(no_mangle)]
pub extern "C" fn khuyurek_aco_write(records: &[u32], text: &[u8], out: &mut [u8]) -> Length
    ensures { (result, out.new) ≡ wrote_of (written text.now (whole width taken records.now) out.old) }
{
    exported_length(aco_write::write(records, text, out))
}
