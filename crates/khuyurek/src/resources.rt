// Image resource blocks for C.
ghost use Rattle.std.specs.Prelude.{◌≡◌, length};
ghost use Rattle.algebra.specs.Table.{verdict};
ghost use Rattle.resource.specs.Reading.{resources};
ghost use Rattle.resource_judge.specs.Answer.{told};
ghost use Rattle.resource_read.specs.Table.{tabled, record_in, found_in};
ghost use Rattle.resource_writing.specs.Writing.{given, needed, written};
ghost use Rattle.resource_document.specs.Reading.{document as documentIn};
ghost use Rattle.resource_document.specs.Answer.{told as told_place};
ghost use Rattle.khuyurek.specs.Written.{written_of, wrote_of};
ghost use Rattle.khuyurek.specs.Resource.{answer_of, read_of, to_record, found_of, section_of};

use crate::{Length, exported_length};
use fault::Refusal;

// Number 0 is accepted, with the number of blocks; else the refusal.
#[repr(C)]
#[derive(Drop)]
pub struct ResourceAnswer {
    pub number: u32,
    pub place: usize,
    pub blocks: usize,
}

// Number 0 is accepted, with the block's ID and where its name and its data lie; else the refusal.
#[repr(C)]
#[derive(Drop)]
pub struct ResourceRecord {
    pub number: u32,
    pub id: u32,
    pub place: usize,
    pub name: usize,
    pub name_length: usize,
    pub data: usize,
    pub data_length: usize,
}

// Number 0 is found, with the block's number; else the refusal.
#[repr(C)]
#[derive(Drop)]
pub struct ResourceFound {
    pub number: u32,
    pub place: usize,
    pub index: usize,
}

// Number 0 is accepted, with the place of the section's first byte and its length; else the refusal.
#[repr(C)]
#[derive(Drop)]
pub struct Section {
    pub number: u32,
    pub place: usize,
    pub first: usize,
    pub length: usize,
}

fn exported(a: Result<usize, Refusal>) -> ResourceAnswer
    ensures { result ≡ answer_of (told a) }
{
    match a {
        Ok(blocks) => ResourceAnswer {
            number: 0,
            place: 0,
            blocks,
        },
        Err(Refusal(fault, place)) => ResourceAnswer {
            number: fault.number(),
            place,
            blocks: 0,
        },
    }
}

// Judges a section.
#[unsafe(no_mangle)]
pub extern "C" fn khuyurek_resource_judge(section: &[u8]) -> ResourceAnswer
    ensures { result ≡ answer_of (verdict length (resources section.now)) }
{
    exported(resource_judge::judge(section))
}

// Reads a section into a table, five numbers a block.
#[unsafe(no_mangle)]
pub extern "C" fn khuyurek_resource_read(section: &[u8], table: &mut [u32]) -> ResourceAnswer
    ensures { (result, table.new) ≡ read_of (tabled (resources section.now) table.old) }
{
    exported(resource_read::read(section, table))
}

// A block by its number.
#[unsafe(no_mangle)]
pub extern "C" fn khuyurek_resource_record_at(section: &[u8], index: usize) -> ResourceRecord
    ensures { result ≡ to_record (record_in index (resources section.now)) }
{
    match resource_read::record_at(section, index) {
        Ok(given) => ResourceRecord {
            number: 0,
            id: given.id,
            place: 0,
            name: given.name,
            name_length: given.letters,
            data: given.payload,
            data_length: given.size,
        },
        Err(Refusal(fault, place)) => ResourceRecord {
            number: fault.number(),
            id: 0,
            place,
            name: 0,
            name_length: 0,
            data: 0,
            data_length: 0,
        },
    }
}

// The number of the first block with an ID.
#[unsafe(no_mangle)]
pub extern "C" fn khuyurek_resource_find(section: &[u8], id: u16) -> ResourceFound
    ensures { result ≡ found_of (found_in id (resources section.now)) }
{
    match resource_read::find(section, id) {
        Ok(index) => ResourceFound {
            number: 0,
            place: 0,
            index,
        },
        Err(Refusal(fault, place)) => ResourceFound {
            number: fault.number(),
            place,
            index: 0,
        },
    }
}

// How many bytes writing needs.
#[unsafe(no_mangle)]
pub extern "C" fn khuyurek_resource_length(records: &[u32], text: &[u8]) -> Length
    ensures { result ≡ written_of (needed text.now (given records.now)) }
{
    exported_length(resource_write_judge::write_length(records, text))
}

// Writes records, whose names and data lie in `text`, into `out`.
#[unsafe(no_mangle)]
pub extern "C" fn khuyurek_resource_write(records: &[u32], text: &[u8], out: &mut [u8]) -> Length
    ensures { (result, out.new) ≡ wrote_of (written text.now (given records.now) out.old) }
{
    exported_length(resource_write::write(records, text, out))
}

// Where the resource section of a document lies, from the document's first bytes.
#[unsafe(no_mangle)]
pub extern "C" fn khuyurek_document_resources(document: &[u8]) -> Section
    ensures { result ≡ section_of (verdict (λ x. x) (documentIn document.now)) }
{
    match resource_document::resources(document) {
        Ok(found) => Section {
            number: 0,
            place: 0,
            first: found.first,
            length: found.size,
        },
        Err(Refusal(fault, place)) => Section {
            number: fault.number(),
            place,
            first: 0,
            length: 0,
        },
    }
}
