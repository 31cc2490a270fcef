// ACB colour books for C.
ghost use Rattle.std.specs.Prelude.{◌≡◌, []};
ghost use Rattle.acb.specs.Reading.{acb};
ghost use Rattle.acb_judge.specs.Answer.{report, told, told_tag, told_header};
ghost use Rattle.acb_read.specs.Answer.{places};
ghost use Rattle.acb_shown_values.specs.Components.{shown_component};
ghost use Rattle.acb_shown_values.specs.Texts.{shown_start};
ghost use Rattle.acb_shown_values.specs.Answer.{told_page};
ghost use Rattle.acb_shown_file.specs.View.{shown_at, page_at, full_length, full_name_at};
ghost use Rattle.acb_shown_file.specs.Answer.{told_count};
ghost use Rattle.algebra.specs.Table.{verdict, filled, record_at, whole};
ghost use Rattle.acb.specs.Row.{width, numbers, taken, records_of};
ghost use Rattle.acb_write_judge.specs.Answer.{told_ending};
ghost use Rattle.khuyurek.specs.Acb.{number_of, header_of, no_header, answer_of, read_of, to_record, four_of, shown_of, full_of, full_read_of, page_of, page_in_of, given_of, tag_of, length_of, wrote_of};

use crate::{Length, exported_length};
use acb_judge::{Book, Header, Tag};
use acb_write_judge::Ending;
use fault::Refusal;
use names::Name;

// Where a string lies in the file or text: the place of its first unit, and its units.
#[repr(C)]
#[derive(Clone, Copy)]
pub struct AcbText {
    pub place: usize,
    pub units: u32,
}

// What stands before the records, apart from their number, and the closing tag: 0 none, 1 spot,
// 2 process.
#[repr(C)]
#[derive(Clone, Copy)]
pub struct AcbHeader {
    pub identifier: u16,
    pub size: u16,
    pub offset: u16,
    pub space: u16,
    pub tag: u32,
    pub title: AcbText,
    pub prefix: AcbText,
    pub suffix: AcbText,
    pub description: AcbText,
}

// Number 0 is accepted, with the header and the number of colours; else the refusal.
#[repr(C)]
#[derive(Drop)]
pub struct AcbAnswer {
    pub number: u32,
    pub place: usize,
    pub count: usize,
    pub header: AcbHeader,
}

// Number 0 is accepted, with the place of the name's first unit, its units, the code, the components
// and the ink; else the refusal.
#[repr(C)]
#[derive(Drop)]
pub struct AcbRecord {
    pub number: u32,
    pub units: u32,
    pub place: usize,
    pub name: usize,
    pub code: [u8; 6],
    pub components: [u8; 4],
    pub ink: u32,
}

fn number_of(t: Tag) -> u32
    ensures { result ≡ number_of (told_tag t) }
{
    match t {
        Tag::None => 0,
        Tag::Spot => 1,
        Tag::Process => 2,
    }
}

fn header_of(h: Header, t: Tag) -> AcbHeader
    ensures { result ≡ header_of (told_header h) (told_tag t) }
{
    AcbHeader {
        identifier: h.identifier,
        size: h.size,
        offset: h.offset,
        space: h.space,
        tag: number_of(t),
        title: AcbText {
            place: h.title.first,
            units: h.title.units,
        },
        prefix: AcbText {
            place: h.prefix.first,
            units: h.prefix.units,
        },
        suffix: AcbText {
            place: h.suffix.first,
            units: h.suffix.units,
        },
        description: AcbText {
            place: h.description.first,
            units: h.description.units,
        },
    }
}

fn no_header() -> AcbHeader
    ensures { result ≡ no_header }
{
    AcbHeader {
        identifier: 0,
        size: 0,
        offset: 0,
        space: 0,
        tag: 0,
        title: AcbText { place: 0, units: 0 },
        prefix: AcbText { place: 0, units: 0 },
        suffix: AcbText { place: 0, units: 0 },
        description: AcbText { place: 0, units: 0 },
    }
}

fn exported(a: Result<Book, Refusal>) -> AcbAnswer
    ensures { result ≡ answer_of (told a) }
{
    match a {
        Ok(book) => AcbAnswer {
            number: 0,
            place: 0,
            count: book.count,
            header: header_of(book.header, book.tag),
        },
        Err(Refusal(fault, place)) => AcbAnswer {
            number: fault.number(),
            place,
            count: 0,
            header: no_header(),
        },
    }
}

// Judges a book.
#[unsafe(no_mangle)]
pub extern "C" fn khuyurek_acb_judge(file: &[u8]) -> AcbAnswer
    ensures { result ≡ answer_of (verdict report (acb file.now)) }
{
    exported(acb_judge::judge(file))
}

// Reads a book into a table, thirteen numbers a record.
#[unsafe(no_mangle)]
pub extern "C" fn khuyurek_acb_read(file: &[u8], table: &mut [u32]) -> AcbAnswer
    ensures { (result, table.new) ≡ read_of (filled width numbers records_of report (acb file.now) table.old) }
{
    exported(acb_read::read(file, table))
}

// Record i of a book.
#[unsafe(no_mangle)]
pub extern "C" fn khuyurek_acb_record_at(file: &[u8], i: usize) -> AcbRecord
    ensures { result ≡ to_record (places (record_at records_of (taken []) i (acb file.now))) }
{
    match acb_read::record_at(file, i) {
        Ok(record) => {
            let code = record.code;
            let components = record.components;
            AcbRecord {
                number: 0,
                units: record.name.units,
                place: 0,
                name: record.name.first,
                code,
                components,
                ink: record.ink.number(),
            }
        }
        Err(Refusal(fault, place)) => AcbRecord {
            number: fault.number(),
            units: 0,
            place,
            name: 0,
            code: [0; 6],
            components: [0; 4],
            ink: 0,
        },
    }
}

// Where the shown text of a string's bytes begins.
#[unsafe(no_mangle)]
pub extern "C" fn khuyurek_acb_shown_start(string: &[u8]) -> usize
    ensures { result ≡ shown_start string.now }
{
    acb_shown_values::shown_start(string)
}

// ---- what a book shows

// Number 0 is accepted, with the shown components, three or four of them; else the refusal.
#[repr(C)]
#[derive(Drop)]
pub struct AcbShown {
    pub number: u32,
    pub count: u32,
    pub place: usize,
    pub values: [i32; 4],
}

// Number 0 is accepted, with the length in bytes; else the refusal.
#[repr(C)]
#[derive(Drop)]
pub struct AcbFull {
    pub number: u32,
    pub size: usize,
    pub place: usize,
}

// Number 0 is accepted, with the record that the page shows; else the refusal.
#[repr(C)]
#[derive(Drop)]
pub struct AcbPage {
    pub number: u32,
    pub rec: usize,
    pub place: usize,
}

fn four(values: [i16; 4]) -> [i32; 4]
    ensures { result ≡ four_of values }
{
    let [a, b, c, d] = values;
    [i32::from(a), i32::from(b), i32::from(c), i32::from(d)]
}

// The shown components of record i of a book.
#[unsafe(no_mangle)]
pub extern "C" fn khuyurek_acb_shown_at(file: &[u8], i: usize) -> AcbShown
    ensures { result ≡ shown_of (shown_at i (acb file.now)) }
{
    match acb_shown_file::shown_at(file, i) {
        Ok(shown) => {
            let values = shown.values;
            AcbShown {
                number: 0,
                count: shown.count as u32,
                place: 0,
                values: four(values),
            }
        }
        Err(Refusal(fault, place)) => AcbShown {
            number: fault.number(),
            count: 0,
            place,
            values: [0; 4],
        },
    }
}

// What the byte of a component shows, by the space and its position in a record.
#[unsafe(no_mangle)]
pub extern "C" fn khuyurek_acb_shown_component(space: u16, position: usize, byte: u8) -> i32
    ensures { result ≡ shown_component space position byte }
{
    i32::from(acb_shown_values::shown_component(space, position, byte))
}

fn exported_full(c: Result<usize, Refusal>) -> AcbFull
    ensures { result ≡ full_of (told_count c) }
{
    match c {
        Ok(size) => AcbFull {
            number: 0,
            size,
            place: 0,
        },
        Err(Refusal(fault, place)) => AcbFull {
            number: fault.number(),
            size: 0,
            place,
        },
    }
}

// The length of the full name of record i of a book.
#[unsafe(no_mangle)]
pub extern "C" fn khuyurek_acb_full_length(file: &[u8], i: usize) -> AcbFull
    ensures { result ≡ full_of (full_length file.now i (acb file.now)) }
{
    exported_full(acb_shown_file::full_length(file, i))
}

// Writes the full name of record i of a book into `out`.
#[unsafe(no_mangle)]
pub extern "C" fn khuyurek_acb_full_name(file: &[u8], i: usize, out: &mut [u8]) -> AcbFull
    ensures { (result, out.new) ≡ full_read_of (full_name_at file.now i (acb file.now) out.old) }
{
    exported_full(acb_shown_file::full_name(file, i, out))
}

fn exported_page(p: Result<usize, Refusal>) -> AcbPage
    ensures { result ≡ page_of (told_page p) }
{
    match p {
        Ok(rec) => AcbPage {
            number: 0,
            rec,
            place: 0,
        },
        Err(Refusal(fault, place)) => AcbPage {
            number: fault.number(),
            rec: 0,
            place,
        },
    }
}

// The record that a page of a book shows.
#[unsafe(no_mangle)]
pub extern "C" fn khuyurek_acb_page_at(file: &[u8], page: usize) -> AcbPage
    ensures { result ≡ page_of (page_at page (acb file.now)) }
{
    exported_page(acb_shown_file::page_at(file, page))
}

// The record that a page shows, of the records of a table that was read.
#[unsafe(no_mangle)]
pub extern "C" fn khuyurek_acb_page_in(
    table: &[u32],
    count: usize,
    size: u16,
    offset: u16,
    page: usize,
) -> AcbPage
    ensures { result ≡ page_in_of table.now count size offset page }
{
    exported_page(acb_shown_file::page_in(table, count, size, offset, page))
}

// ---- writing

fn header_given(g: AcbHeader) -> Header
    ensures { told_header result ≡ given_of g }
{
    Header {
        identifier: g.identifier,
        title: Name {
            first: g.title.place,
            units: g.title.units,
        },
        prefix: Name {
            first: g.prefix.place,
            units: g.prefix.units,
        },
        suffix: Name {
            first: g.suffix.place,
            units: g.suffix.units,
        },
        description: Name {
            first: g.description.place,
            units: g.description.units,
        },
        size: g.size,
        offset: g.offset,
        space: g.space,
    }
}

// A number that is no tag is another one, which is refused in its turn.
fn tag_given(number: u32) -> Ending
    ensures { told_ending result ≡ tag_of number }
{
    if number == 0 {
        return Ending::Tagged(Tag::None);
    }
    if number == 1 {
        return Ending::Tagged(Tag::Spot);
    }
    if number == 2 {
        return Ending::Tagged(Tag::Process);
    }
    Ending::Other
}

// How many bytes writing a book takes.
#[unsafe(no_mangle)]
pub extern "C" fn khuyurek_acb_length(header: AcbHeader, records: &[u32], text: &[u8]) -> Length
    ensures { result ≡ length_of text.now header (whole width taken records.now) }
{
    exported_length(acb_write_judge::write_length(
        header_given(header),
        tag_given(header.tag),
        records,
        text,
    ))
}

// Writes a book, whose strings and names lie in `text`, into `out`.
#[unsafe(no_mangle)]
pub extern "C" fn khuyurek_acb_write(
    header: AcbHeader,
    records: &[u32],
    text: &[u8],
    out: &mut [u8],
) -> Length
    ensures { (result, out.new) ≡ wrote_of text.now header (whole width taken records.now) out.old }
{
    exported_length(acb_write::write(
        header_given(header),
        tag_given(header.tag),
        records,
        text,
        out,
    ))
}
