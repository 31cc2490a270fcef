// ACB colour books: a header and the records of a run of numbers, judged as the reader would judge the file made of
// them.
#![tactic(auto)]

ghost use Rattle.std.specs.Prelude.{◌≡◌, ◌+◌, ◌*◌, ◌≤◌, ◌<◌, leb, length};
ghost use Rattle.algebra.specs.Reader.{pick, limit};
ghost use Rattle.algebra.specs.Faults.{faults};
ghost use Rattle.algebra.specs.Writing.{bytes, refused};
ghost use Rattle.fault.specs.Answer.{told_written};
ghost use Rattle.acb_judge.specs.Answer.{told_text, told_header, told_tag};
ghost use Rattle.acb_writing.specs.Writing.{string_size, tag_size, ending_size, head_size, size, text_fault, byte_fault, head_fault, colour_fault, unless_ink, ink_fault, needed};
ghost use Rattle.algebra.specs.Table.{rows, whole};
ghost use Rattle.acb.specs.Row.{width, taken};
ghost use Rattle.acb_write_judge.specs.Parts.{told_record, record_in};
ghost use Rattle.acb_write_judge.specs.scaffold.Parts.{given_at, needed_apart, told_fault};
ghost use Rattle.acb_write_judge.specs.Answer.{told_ending};

use acb::{LIMIT, WIDTH};
use acb_judge::{Header, Tag};
use fault::Fault;
use names::Name;

/// A record of a run: where its name lies, its six code bytes, four components, and its ink.
#[derive(Clone, Copy)]
pub struct Record {
    pub name: Name,
    pub code: [u32; 6],
    pub components: [u32; 4],
    pub ink: u32,
}

/// How a book to be written ends: as a file may end, or with another tag, which is refused.
// Kept: an Option of a tag that is itself None where there is none would say less.
#[derive(Clone, Copy, Debug, PartialEq, Eq)]
pub enum Ending {
    Tagged(Tag),
    Other,
}

// Record k of a run that has it; no other function takes one out of a run.
fn whole_at(run: &[u32], k: usize) -> Record
    requires { width * k + width ≤ length run.now }
    ensures { told_record result ≡ given_at run.now k }
{
    let at = WIDTH * k;
    let row = &run[at..at + WIDTH];
    Record {
        name: Name {
            first: row[0] as usize,
            units: row[1],
        },
        code: [row[2], row[3], row[4], row[5], row[6], row[7]],
        components: [row[8], row[9], row[10], row[11]],
        ink: row[12],
    }
}

/// Record k of a run, all zeros where the run does not have it whole.
pub fn record_at(run: &[u32], k: usize) -> Record
    ensures { told_record result ≡ record_in run.now k }
{
    if run.len() / WIDTH <= k {
        return Record {
            name: Name { first: 0, units: 0 },
            code: [0; 6],
            components: [0; 4],
            ink: 0,
        };
    }
    whole_at(run, k)
}

// ---- how long the file is

// How many bytes a string takes.
fn string_size(string: Name) -> usize
    ensures { (result ≡ string_size (told_text string)) × (result < 0x3_0000_0000) }
{
    4 + 2 * (string.units as usize)
}

// How many bytes the closing tag takes.
fn tag_size(tag: Tag) -> usize
    ensures { (result ≡ tag_size (told_tag tag)) × (result ≤ 8) }
{
    match tag {
        Tag::None => 0,
        Tag::Spot => 8,
        Tag::Process => 8,
    }
}

// The same, where the tag may be another; one has eight bytes too.
fn ending_size(ending: Ending) -> usize
    ensures { (result ≡ ending_size (told_ending ending)) × (result ≤ 8) }
{
    match ending {
        Ending::Tagged(tag) => tag_size(tag),
        Ending::Other => 8,
    }
}

// How many bytes the header takes.
fn head_size(header: Header) -> usize
    ensures { (result ≡ head_size (told_header header)) × (result < 0x10_0000_0000) }
{
    let front = string_size(header.title) + string_size(header.prefix);
    let back = string_size(header.suffix) + string_size(header.description);
    16 + front + back
}

// How many bytes the file of n records takes. It stops at the limit, so that no sum passes 64 bits.
fn size_of(header: Header, ending: Ending, run: &[u32], n: usize) -> Result<usize, Fault>
    requires { width * n ≤ length run.now }
    ensures { told_written result ≡ pick (leb (size (told_header header) (told_ending ending) (rows width taken run.now n 0)) limit) (bytes (size (told_header header) (told_ending ending) (rows width taken run.now n 0))) (refused 1 0) }
{
    let behind_name = 6 + acb_judge::components_of(header.space);
    let mut total = head_size(header) + ending_size(ending);
    if LIMIT < total {
        return Err(Fault::TooLong);
    }
    for i in 0..n {
        total += string_size(whole_at(run, i).name) + behind_name;
        if LIMIT < total {
            return Err(Fault::TooLong);
        }
    }
    Ok(total)
}

// ---- judging

// A string runs past the lent bytes, or not.
fn judge_text(text: &[u8], string: Name) -> Result<(), Fault>
    ensures { told_fault result ≡ text_fault text.now (told_text string) }
{
    if string.units == 0 {
        return Ok(());
    }
    let k = 2 * (string.units as usize);
    let n = text.len();
    if n < k {
        return Err(Fault::Short);
    }
    if n - k < string.first {
        return Err(Fault::Short);
    }
    Ok(())
}

// The header's strings.
fn judge_texts(text: &[u8], header: Header) -> Result<(), Fault>
    ensures { told_fault result ≡ faults (text_fault text.now) (told_header header).texts }
{
    judge_text(text, header.title)?;
    judge_text(text, header.prefix)?;
    judge_text(text, header.suffix)?;
    judge_text(text, header.description)
}

// A header before so many records.
fn judge_head(text: &[u8], header: Header, count: usize) -> Result<(), Fault>
    ensures { told_fault result ≡ head_fault text.now (told_header header) count }
{
    judge_texts(text, header)?;
    if 65535 < count {
        return Err(Fault::OutOfRange);
    }
    if header.size == 0 {
        return Err(Fault::OutOfRange);
    }
    if !acb_judge::is_space(header.space) {
        return Err(Fault::Unknown);
    }
    Ok(())
}

// Numbers that are each to be a byte.
fn judge_bytes(numbers: &[u32]) -> Result<(), Fault>
    ensures { told_fault result ≡ faults byte_fault numbers.now }
{
    for &x in numbers {
        if 255 < x {
            return Err(Fault::OutOfRange);
        }
    }
    Ok(())
}

// A record of n components. Nearly always all four numbers are bytes, and only otherwise are the n judged alone; of four
// or three, parts of known length, the compiler keeps no loop.
fn judge_colour(text: &[u8], given: Record, n: usize) -> Result<(), Fault>
    requires { n ≤ 4 }
    ensures { told_fault result ≡ colour_fault text.now n (told_record given) }
{
    let code = given.code;
    let components = given.components;
    judge_text(text, given.name)?;
    judge_bytes(&code)?;
    if judge_bytes(&components).is_ok() {
        return Ok(());
    }
    if n == 3 {
        return judge_bytes(&components[..3]);
    }
    judge_bytes(&components[..n])
}

// The count records of n components.
fn judge_colours(run: &[u32], text: &[u8], count: usize, n: usize) -> Result<(), Fault>
    requires { (width * count ≤ length run.now) × (n ≤ 4) }
    ensures { told_fault result ≡ faults (colour_fault text.now n) (rows width taken run.now count 0) }
{
    for i in 0..count {
        judge_colour(text, whole_at(run, i), n)?;
    }
    Ok(())
}

// The exact length that writing needs, or the refusal, apart from the inks.
fn length_of(header: Header, ending: Ending, records: &[u32], text: &[u8]) -> Result<usize, Fault>
    ensures { told_written result ≡ needed_apart text.now (told_header header) (told_ending ending) (whole width taken records.now) }
{
    let n = records.len() / WIDTH;
    let size = size_of(header, ending, records, n)?;
    judge_head(text, header, n)?;
    judge_colours(records, text, n, acb_judge::components_of(header.space))?;
    match ending {
        Ending::Other => Err(Fault::WrongTag),
        Ending::Tagged(_) => Ok(size),
    }
}

// ---- inks

// The n inks of a run, where the book's tag states the ink with a number.
fn judge_inks(run: &[u32], n: usize, ink: u32) -> Result<(), Fault>
    requires { width * n ≤ length run.now }
    ensures { told_fault result ≡ faults (unless_ink ink) (rows width taken run.now n 0) }
{
    for i in 0..n {
        if whole_at(run, i).ink != ink {
            return Err(Fault::NoCounterpart);
        }
    }
    Ok(())
}

// The inks of a book that ends so. Another tag was refused before.
fn judge_stated(ending: Ending, records: &[u32]) -> Result<(), Fault>
    ensures { told_fault result ≡ faults (ink_fault (told_ending ending)) (whole width taken records.now) }
{
    match ending {
        Ending::Other => Ok(()),
        Ending::Tagged(tag) => judge_inks(
            records,
            records.len() / WIDTH,
            acb_judge::ink_of(tag).number(),
        ),
    }
}

/// The exact length that writing needs, or the refusal.
pub fn write_length(
    header: Header,
    ending: Ending,
    records: &[u32],
    text: &[u8],
) -> Result<usize, Fault>
    ensures { told_written result ≡ needed text.now (told_header header) (told_ending ending) (whole width taken records.now) }
{
    let size = length_of(header, ending, records, text)?;
    judge_stated(ending, records)?;
    Ok(size)
}
