// Lists the ACB file on standard input: its header, its shown texts, a line a record, a line a page,
// `end`; or the refusal.
#![tactic(auto)]

ghost use Rattle.std.specs.Prelude.{◌≡◌, ◌≤◌, ◌<◌, length, take};
ghost use Rattle.algebra.specs.Numbers.{joined};
ghost use Rattle.acb.specs.Reading.{components_of, acb};
ghost use Rattle.acb_judge.specs.Answer.{told_text, told_header, told_tag};
ghost use Rattle.acb_shown_values.specs.Answer.{told_page};
ghost use Rattle.listing.specs.Buffer.{put_all};
ghost use Rattle.acb_read.specs.Answer.{told_given};
ghost use Rattle.acb_read.specs.Walked.{walked};
ghost use Rattle.acb_shown_file.specs.View.{dummies_in};
ghost use Rattle.listing.specs.Text.{word, lines, taken};
ghost use Rattle.acb_list.specs.Listing.{ending, numbers, heading, texts, pages, listing};
ghost use Rattle.acb_list.specs.scaffold.Parts.{record_text, given_line};
ghost use Rattle.acb_list.specs.Listing.{text as Listing·text, page as Listing·page};

use acb::WIDTH;
use acb_judge::{Header, Tag};
use acb_read::BookRecord;
use fault::{Fault, Refusal};
use listing::{finish, put, put_name, put_number, put_refusal, put_text, put_word, take_input};
use names::Name;
use walk::name_part;

// The longest input that is listed.
const TAKEN: usize = 65536;
// The records that the table has room for, more than the longest input holds, since a record has 13
// bytes or more.
const RECORDS: usize = 5041;

fn put_tag(out: &mut [u8], n: usize, tag: Tag) -> usize
    ensures { (out.new, result) ≡ put_all (out.old, n) (ending (told_tag tag)) }
{
    match tag {
        Tag::None => put_text(out, n, b"none\n"),
        Tag::Spot => put_text(out, n, b"spot\n"),
        Tag::Process => put_text(out, n, b"process\n"),
    }
}

// Page size, page offset and identifier.
fn put_numbers(out: &mut [u8], n: usize, header: Header) -> usize
    ensures { (out.new, result) ≡ put_all (out.old, n) (numbers (told_header header)) }
{
    let mut at = put_word(out, n, header.size as u64);
    at = put_word(out, at, header.offset as u64);
    put_word(out, at, header.identifier as u64)
}

fn put_heading(out: &mut [u8], header: Header, tag: Tag, count: usize) -> usize
    ensures { (out.new, result) ≡ put_all (out.old, 0) (heading (told_header header) (told_tag tag) count) }
{
    let mut at = put_text(out, 0, b"ACB");
    at = put_word(out, at, count as u64);
    at = put_word(out, at, header.space as u64);
    at = put_numbers(out, at, header);
    at = put(out, at, b' ');
    put_tag(out, at, tag)
}

// A header string as it is shown, behind a label.
fn put_shown(out: &mut [u8], n: usize, label: &[u8], file: &[u8], text: Name) -> usize
    ensures { (out.new, result) ≡ put_all (out.old, n) (Listing·text file.now label.now (told_text text)) }
{
    let mut at = put_text(out, n, label);
    at = put_name(
        out,
        at,
        acb_shown_values::shown_text(name_part(file, text.first, text.units)),
    );
    put(out, at, b'\n')
}

fn put_texts(out: &mut [u8], n: usize, file: &[u8], header: Header) -> usize
    ensures { (out.new, result) ≡ put_all (out.old, n) (texts file.now (told_header header).texts) }
{
    let title = header.title;
    let prefix = header.prefix;
    let suffix = header.suffix;
    let description = header.description;
    let mut at = put_shown(out, n, b"title ", file, title);
    at = put_shown(out, at, b"prefix ", file, prefix);
    at = put_shown(out, at, b"suffix ", file, suffix);
    put_shown(out, at, b"description ", file, description)
}

// So many of some components, as far as there are.
fn put_components(out: &mut [u8], n: usize, values: &[u8], components: usize) -> usize
    ensures { (out.new, result) ≡ put_all (out.old, n) (joined word (take components values.now)) }
{
    let mut at = n;
    for k in 0..components {
        if values.len() <= k {
            return at;
        }
        at = put_word(out, at, u64::from(values[k]));
    }
    at
}

// What stands in a record's line after its number. The six bytes of the code are listed as those of a name
// would be.
fn put_record(out: &mut [u8], n: usize, file: &[u8], given: BookRecord, components: usize) -> usize
    ensures { (out.new, result) ≡ put_all (out.old, n) (record_text file.now components (told_given given)) }
{
    let code = given.code;
    let values = given.components;
    let mut at = put(out, n, b' ');
    at = put_name(out, at, &code);
    at = put_components(out, at, &values, components);
    at = put(out, at, b' ');
    at = put_name(out, at, name_part(file, given.name.first, given.name.units));
    put(out, at, b'\n')
}

// The `count` records from `first` on, of a book of a space.
fn put_records(
    out: &mut [u8],
    n: usize,
    file: &[u8],
    first: usize,
    space: u16,
    count: usize,
) -> usize
    ensures { (out.new, result) ≡ put_all (out.old, n) (lines (given_line file.now (components_of space)) 0 (walked space file.now first count)) }
{
    let components = acb_judge::components_of(space);
    let mut at = n;
    let mut p = first;
    for i in 0..count {
        let step = acb_read::step_at(file, p, space);
        at = put_number(out, at, i as u64);
        at = put_record(out, at, file, acb_read::given(step.swatch), components);
        p = step.next;
    }
    at
}

// A page's number, and the record that it shows, or `-` where it shows none.
fn put_page(out: &mut [u8], n: usize, page: usize, shown: Result<usize, Refusal>) -> usize
    ensures { (out.new, result) ≡ put_all (out.old, n) (Listing·page page (told_page shown)) }
{
    let mut at = put_text(out, n, b"page");
    at = put_word(out, at, page as u64);
    match shown {
        Ok(i) => {
            at = put_word(out, at, i as u64);
            put(out, at, b'\n')
        }
        Err(_) => put_text(out, at, b" -\n"),
    }
}

// The pages that exist: one for each `size` records, and one for those that are left.
fn put_pages(out: &mut [u8], n: usize, table: &[u32], count: usize, size: u16, offset: u16) -> usize
    ensures { (out.new, result) ≡ put_all (out.old, n) (pages count size offset (dummies_in table.now count)) }
{
    let mut at = n;
    if size == 0 {
        return at;
    }
    let mut left = count;
    let mut page: usize = 0;
    // Kept: pages are gone over until no record is left, and the last may be short.
    while 0 < left {
        let shown = acb_shown_file::page_in(table, count, size, offset, page);
        at = put_page(out, at, page, shown);
        if left <= size as usize {
            return at;
        }
        left -= size as usize;
        page += 1;
    }
    at
}

fn put_listing(out: &mut [u8], file: &[u8]) -> usize
    ensures { (out.new, result) ≡ put_all (out.old, 0) (taken 65536 file.now (listing file.now (acb file.now))) }
{
    if TAKEN < file.len() {
        return put_refusal(out, Fault::TooLong.number(), 0);
    }
    let mut table = [0u32; WIDTH * RECORDS];
    match acb_read::read(file, &mut table) {
        Err(refused) => put_refusal(out, refused.0.number(), refused.1),
        Ok(book) => {
            let header = book.header;
            let mut at = put_heading(out, header, book.tag, book.count);
            at = put_texts(out, at, file, header);
            at = put_records(out, at, file, book.first, header.space, book.count);
            at = put_pages(out, at, &table, book.count, header.size, header.offset);
            put_text(out, at, b"end\n")
        }
    }
}

// Takes standard input. The buffer has room for a byte more than is listed, so that a longer input is
// not cut to one that is.
fn take_file(input: &mut [u8]) -> usize
    requires { 65536 < length input.old }
    ensures { (result ≤ length input.new) × (result ≡ length (take result input.new)) }
{
    take_input(input)
}

fn main() {
    let mut input = [0u8; TAKEN + 1];
    let mut out = [0u8; 16384];
    let n = take_file(&mut input);
    let full = put_listing(&mut out, &input[..n]);
    finish(&out, full);
}
