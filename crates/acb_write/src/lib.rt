// ACB colour books: writing a header and the records of a run of numbers into lent bytes.
#![tactic(auto)]

ghost use Rattle.std.specs.Prelude.{◌≡◌, map, ◌+◌, ◌*◌, ◌≤◌, ◌<◌, length};
ghost use Rattle.std.proofs.lemmas.List.Edits.{sets};
ghost use Rattle.algebra.specs.Numbers.{be, joined};
ghost use Rattle.acb.specs.Grammar.{bytes_of_string, colour_bytes, tag_bytes, ending_bytes, file_bytes};
ghost use Rattle.acb.specs.Faults.{ending_fault};
ghost use Rattle.acb_judge.specs.Answer.{told_text, told_header, told_tag};
ghost use Rattle.acb_writing.specs.Writing.{units_within, colour_in, book_in, sizes, string_size, size_within, tag_size, ending_size, head_size, size, head_fault, fault, written};
ghost use Rattle.algebra.specs.Table.{rows, whole};
ghost use Rattle.acb.specs.Row.{width, taken};
ghost use Rattle.fault.specs.Answer.{told_written};
ghost use Rattle.acb_write_judge.specs.Answer.{told_ending};
ghost use Rattle.acb_write_judge.specs.Parts.{told_record};
ghost use Rattle.acb_write_judge.specs.scaffold.Parts.{start, number_bytes, heading_bytes, StringFits, TextsFit, RecordFits, RecordsFit};

use acb::WIDTH;
use acb_judge::{Header, Tag};
use acb_write_judge::{Ending, Record};
use fault::Fault;
use names::Name;

// The halves of the closing tags: `spfl`, and `spot` or `proc`.
const TAG: u32 = (acb::SPOT / 0x1_0000_0000) as u32;

const SPOT: u32 = (acb::SPOT % 0x1_0000_0000) as u32;

const PROCESS: u32 = (acb::PROCESS % 0x1_0000_0000) as u32;

// ---- storing

// Where a string begins; 0 for one of no units, whose place may be any.
fn start_of(string: Name) -> usize
    ensures { result ≡ start (told_text string) }
{
    if string.units == 0 {
        return 0;
    }
    string.first
}

// A string from `at`; it answers the next place.
fn put_string(out: &mut [u8], at: usize, text: &[u8], string: Name) -> usize
    requires { StringFits text.now (told_text string) at (length out.old) }
    ensures { (result ≡ at + string_size (told_text string)) × (out.new ≡ sets out.old at (bytes_of_string (units_within text.now (told_text string)))) }
{
    let first = start_of(string);
    let k = 2 * (string.units as usize);
    let end = first + k;
    fields::put_number::<u32>(out, at, string.units);
    fields::put_run(out, at + 4, &text[first..end]);
    at + 4 + k
}

// Numbers as bytes: of each its low byte, which is all of one that was judged.
fn put_bytes(out: &mut [u8], at: usize, numbers: &[u32])
    requires { at + length numbers.now ≤ length out.old }
    ensures { out.new ≡ sets out.old at (joined (be 1) numbers.now) }
{
    for i in 0..numbers.len() {
        out[at + i] = (numbers[i] % 256) as u8;
    }
}

// A record of n components from `at`; it answers the next place. Three or four are a part of known length each, which
// the compiler stores without a loop.
fn put_colour(out: &mut [u8], at: usize, text: &[u8], given: Record, n: usize) -> usize
    requires { RecordFits text.now n (told_record given) at (length out.old) }
    ensures { (result ≡ at + size_within n (told_record given)) × (out.new ≡ sets out.old at (colour_bytes (colour_in text.now n (told_record given)))) }
{
    let code = given.code;
    let components = given.components;
    let p = put_string(out, at, text, given.name);
    put_bytes(out, p, &code);
    if n == 3 {
        put_bytes(out, p + 6, &components[..3]);
        return p + 9;
    }
    put_bytes(out, p + 6, &components);
    p + 10
}

// The count records of n components from `at`; it answers the next place.
fn put_colours(out: &mut [u8], at: usize, run: &[u32], text: &[u8], count: usize, n: usize) -> usize
    requires { (width * count ≤ length run.now) × RecordsFit text.now n (rows width taken run.now count 0) at (length out.old) }
    ensures { (result ≡ at + sizes (size_within n) (rows width taken run.now count 0)) × (out.new ≡ sets out.old at (joined colour_bytes (map (colour_in text.now n) (rows width taken run.now count 0)))) }
{
    let mut p = at;
    for i in 0..count {
        p = put_colour(out, p, text, acb_write_judge::record_at(run, i), n);
    }
    p
}

// The header's strings from `at`; it answers the next place.
fn put_texts(out: &mut [u8], at: usize, text: &[u8], header: Header) -> usize
    requires { TextsFit text.now (told_header header).texts at (length out.old) }
    ensures { (result ≡ at + sizes string_size (told_header header).texts) × (out.new ≡ sets out.old at (joined bytes_of_string (map (units_within text.now) (told_header header).texts))) }
{
    let a = put_string(out, at, text, header.title);
    let b = put_string(out, a, text, header.prefix);
    let c = put_string(out, b, text, header.suffix);
    put_string(out, c, text, header.description)
}

// The header's numbers behind its strings.
fn put_numbers(out: &mut [u8], at: usize, header: Header, count: u16)
    requires { at + 8 ≤ length out.old }
    ensures { out.new ≡ sets out.old at (number_bytes (told_header header) count) }
{
    fields::put_number::<u16>(out, at, count);
    fields::put_number::<u16>(out, at + 2, header.size);
    fields::put_number::<u16>(out, at + 4, header.offset);
    fields::put_number::<u16>(out, at + 6, header.space);
}

// The header before so many records; it answers the next place.
fn put_head(out: &mut [u8], text: &[u8], header: Header, count: usize) -> usize
    requires { (head_size (told_header header) ≤ length out.old) × (head_fault text.now (told_header header) count ≡ 0) }
    ensures { (result ≡ head_size (told_header header)) × (out.new ≡ sets out.old 0 (heading_bytes text.now (told_header header) count)) }
{
    fields::put_number::<u32>(out, 0, acb::SIGNATURE);
    fields::put_number::<u16>(out, 4, 1);
    fields::put_number::<u16>(out, 6, header.identifier);
    let p = put_texts(out, 8, text, header);
    put_numbers(out, p, header, count as u16);
    p + 8
}

// The closing tag.
fn put_tag(out: &mut [u8], at: usize, tag: Tag)
    requires { at + tag_size (told_tag tag) ≤ length out.old }
    ensures { out.new ≡ sets out.old at (tag_bytes (told_tag tag)) }
{
    match tag {
        Tag::None => {}
        Tag::Spot => {
            fields::put_number::<u32>(out, at, TAG);
            fields::put_number::<u32>(out, at + 4, SPOT);
        }
        Tag::Process => {
            fields::put_number::<u32>(out, at, TAG);
            fields::put_number::<u32>(out, at + 4, PROCESS);
        }
    }
}

// The same of a book without a fault, so that its tag is not another.
fn put_ending(out: &mut [u8], at: usize, ending: Ending)
    requires { (at + ending_size (told_ending ending) ≤ length out.old) × (ending_fault (told_ending ending) ≡ 0) }
    ensures { out.new ≡ sets out.old at (ending_bytes (told_ending ending)) }
{
    match ending {
        Ending::Tagged(tag) => put_tag(out, at, tag),
        Ending::Other => {}
    }
}

// The whole file of n records.
fn put_file(out: &mut [u8], header: Header, ending: Ending, run: &[u32], text: &[u8], n: usize)
    requires { (width * n ≤ length run.now) × (size (told_header header) (told_ending ending) (rows width taken run.now n 0) ≤ length out.old) × (fault text.now (told_header header) (told_ending ending) (rows width taken run.now n 0) ≡ 0) }
    ensures { out.new ≡ sets out.old 0 (file_bytes (book_in text.now (told_header header) (told_ending ending) (rows width taken run.now n 0))) }
{
    let first = put_head(out, text, header, n);
    let end = put_colours(
        out,
        first,
        run,
        text,
        n,
        acb_judge::components_of(header.space),
    );
    put_ending(out, end, ending);
}

/// Writes the header, the records and the tag into `out`; strings and names lie in `text`. A refusal
/// changes nothing.
pub fn write(
    header: Header,
    ending: Ending,
    records: &[u32],
    text: &[u8],
    out: &mut [u8],
) -> Result<usize, Fault>
    ensures { (told_written result, out.new) ≡ written text.now (told_header header) (told_ending ending) (whole width taken records.now) out.old }
{
    let size = acb_write_judge::write_length(header, ending, records, text)?;
    if out.len() < size {
        return Err(Fault::NoRoom);
    }
    put_file(out, header, ending, records, text, records.len() / WIDTH);
    Ok(size)
}
