// ACB colour books: judging a file by the layout.
#![tactic(auto)]

ghost use Rattle.std.specs.Prelude.{◌≡◌, ◌≤◌, length, map};
ghost use Rattle.algebra.specs.Reader.{done, each, judged, map_res};
ghost use Rattle.algebra.specs.Table.{verdict};
ghost use Rattle.algebra.specs.Text.{place};
ghost use Rattle.fault.specs.Answer.{told_end};
ghost use Rattle.names.specs.Answer.{told_name};
ghost use Rattle.acb.specs.Reading.{string, colour, is_space, components_of, page_size, space, opening, strings, numbers, header, closing, acb};
ghost use Rattle.acb.specs.Row.{tag_ink};
ghost use Rattle.acb_judge.specs.scaffold.Parts.{header_from, rest, known_tag};
ghost use Rattle.acb_judge.specs.Answer.{text_place, report, reported, told, told_header, told_tag};
ghost use Rattle.acb_judge.specs.scaffold.Answer.{told_number, told_strings, told_counts, told_head, headed, told_known, told_closing};

use acb::{LIMIT, PROCESS, SIGNATURE, SPOT};
use colour::Ink;
use fault::{Fault, Refusal};
use names::Name;

/// How a file ends.
#[derive(Clone, Copy, Debug, PartialEq, Eq)]
pub enum Tag {
    None,
    Spot,
    Process,
}

/// The ink that a closing tag states for all records of its book.
pub fn ink_of(tag: Tag) -> Ink
    ensures { result ≡ tag_ink (told_tag tag) }
{
    match tag {
        Tag::None => Ink::NotStated,
        Tag::Spot => Ink::Spot,
        Tag::Process => Ink::Process,
    }
}

/// What stands before the records, apart from their number.
#[derive(Clone, Copy)]
pub struct Header {
    pub identifier: u16,
    pub title: Name,
    pub prefix: Name,
    pub suffix: Name,
    pub description: Name,
    pub size: u16,
    pub offset: u16,
    pub space: u16,
}

/// An accepted file: the header, the closing tag, the number of records and the place of the first.
#[derive(Clone, Copy)]
pub struct Book {
    pub header: Header,
    pub tag: Tag,
    pub count: usize,
    pub first: usize,
}

#[derive(Clone, Copy)]
struct Strings {
    title: Name,
    prefix: Name,
    suffix: Name,
    description: Name,
}

// The numbers of the header behind its strings: of the records, of a page and its first record, and
// of the space.
#[derive(Clone, Copy)]
struct Counts {
    count: u16,
    size: u16,
    offset: u16,
    space: u16,
}

// ---- records

// The string at `at`: where its units lie, and the next place.
fn string_at(file: &[u8], at: usize) -> Result<(Name, usize), Refusal>
    ensures { told_name result ≡ place (string file.now at) }
{
    let (units, first) = fields::number_at::<u32>(file, at)?;
    let k = units as usize;
    // Not by twice the count: the compiler would take the number apart for it, byte by byte.
    if (file.len() - first) / 2 < k {
        return Err(Refusal(Fault::Short, first));
    }
    Ok((Name { first, units }, first + 2 * k))
}

// The place behind the record of n components at `at`. A missing component is missing at the file's
// end.
fn colour_at(file: &[u8], at: usize, n: usize) -> Result<usize, Refusal>
    requires { n ≤ 4 }
    ensures { told_end result ≡ done (colour n file.now at) }
{
    let (_, code) = string_at(file, at)?;
    let left = file.len() - code;
    if left < 6 + n {
        if left < 6 {
            return Err(Refusal(Fault::Short, code));
        }
        return Err(Refusal(Fault::Short, file.len()));
    }
    Ok(code + (6 + n))
}

// The place behind the `count` records of n components from `at`.
fn colours_at(file: &[u8], at: usize, count: u16, n: usize) -> Result<usize, Refusal>
    requires { n ≤ 4 }
    ensures { told_end result ≡ done (each count 0 (λ i. colour n) file.now at) }
{
    let mut p = at;
    for _i in 0..count {
        p = colour_at(file, p, n)?;
    }
    Ok(p)
}

// ---- the header

/// Whether a space is RGB, CMYK or Lab.
pub fn is_space(space: u16) -> bool
    ensures { result ≡ is_space space }
{
    match space {
        colour::RGB => true,
        colour::CMYK => true,
        colour::LAB => true,
        _ => false,
    }
}

/// How many components a record has: 4 in CMYK, else 3.
pub fn components_of(space: u16) -> usize
    ensures { result ≡ components_of space }
{
    if space == colour::CMYK {
        return 4;
    }
    3
}

// `8BCB`, 1, and the identifier.
fn opening_at(file: &[u8]) -> Result<(u16, usize), Refusal>
    ensures { told_number result ≡ opening file.now 0 }
{
    let (signature, a) = fields::number_at::<u32>(file, 0)?;
    if signature != SIGNATURE {
        return Err(Refusal(Fault::WrongTag, 0));
    }
    let b = fields::number_is(file, a, 1, Fault::WrongTag)?;
    fields::number_at::<u16>(file, b)
}

// Title, prefix, suffix and description from `at`.
fn strings_at(file: &[u8], at: usize) -> Result<(Strings, usize), Refusal>
    ensures { told_strings result ≡ map_res (map text_place) (strings file.now at) }
{
    let (title, p) = string_at(file, at)?;
    let (prefix, q) = string_at(file, p)?;
    let (suffix, r) = string_at(file, q)?;
    let (description, end) = string_at(file, r)?;
    let texts = Strings {
        title,
        prefix,
        suffix,
        description,
    };
    Ok((texts, end))
}

// A 16-bit number that is not 0, else 5.
fn size_at(file: &[u8], at: usize) -> Result<(u16, usize), Refusal>
    ensures { told_number result ≡ judged 2 page_size file.now at }
{
    let (size, next) = fields::number_at::<u16>(file, at)?;
    if size == 0 {
        return Err(Refusal(Fault::OutOfRange, at));
    }
    Ok((size, next))
}

// A space, else 4.
fn space_at(file: &[u8], at: usize) -> Result<(u16, usize), Refusal>
    ensures { told_number result ≡ judged 2 space file.now at }
{
    let (space, next) = fields::number_at::<u16>(file, at)?;
    if !is_space(space) {
        return Err(Refusal(Fault::Unknown, at));
    }
    Ok((space, next))
}

// Colour count, page size, page offset and space from `at`.
fn counts_at(file: &[u8], at: usize) -> Result<(Counts, usize), Refusal>
    ensures { told_counts result ≡ numbers file.now at }
{
    let (count, p) = fields::number_at::<u16>(file, at)?;
    let (size, q) = size_at(file, p)?;
    let (offset, r) = fields::number_at::<u16>(file, q)?;
    let (space, end) = space_at(file, r)?;
    let counts = Counts {
        count,
        size,
        offset,
        space,
    };
    Ok((counts, end))
}

// Strings and numbers from `at`, behind an identifier: the header, the number of records and the
// place of the first.
fn fields_at(file: &[u8], at: usize, identifier: u16) -> Result<(Header, u16, usize), Refusal>
    ensures { told_head result ≡ map_res headed (header_from identifier file.now at) }
{
    let (texts, p) = strings_at(file, at)?;
    let (counts, first) = counts_at(file, p)?;
    let header = Header {
        identifier,
        title: texts.title,
        prefix: texts.prefix,
        suffix: texts.suffix,
        description: texts.description,
        size: counts.size,
        offset: counts.offset,
        space: counts.space,
    };
    Ok((header, counts.count, first))
}

// The header.
fn header_at(file: &[u8]) -> Result<(Header, u16, usize), Refusal>
    ensures { told_head result ≡ map_res headed (header file.now 0) }
{
    let (identifier, p) = opening_at(file)?;
    fields_at(file, p, identifier)
}

// ---- the file

fn tag_of(tag: u64) -> Option<Tag>
    ensures { told_known result ≡ known_tag tag }
{
    match tag {
        SPOT => Some(Tag::Spot),
        PROCESS => Some(Tag::Process),
        _ => None,
    }
}

// The closing tag at `at`, if any, which ends the file.
fn closing_at(file: &[u8], at: usize) -> Result<Tag, Refusal>
    ensures { told_closing (length file.now) result ≡ closing file.now at }
{
    if at == file.len() {
        return Ok(Tag::None);
    }
    let (bits, end) = fields::number_at::<u64>(file, at)?;
    let Some(tag) = tag_of(bits) else {
        return Err(Refusal(Fault::WrongTag, at));
    };
    if end != file.len() {
        return Err(Refusal(Fault::LeftOver, end));
    }
    Ok(tag)
}

// The records and the closing tag behind a header.
fn rest_at(file: &[u8], header: Header, count: u16, first: usize) -> Result<Book, Refusal>
    ensures { told result ≡ verdict (reported (told_header header) count first) (rest count header.space file.now first) }
{
    let end = colours_at(file, first, count, components_of(header.space))?;
    let tag = closing_at(file, end)?;
    Ok(Book {
        header,
        tag,
        count: count as usize,
        first,
    })
}

/// Judges a whole file.
pub fn judge(file: &[u8]) -> Result<Book, Refusal>
    ensures { told result ≡ verdict report (acb file.now) }
{
    if LIMIT < file.len() {
        return Err(Refusal(Fault::TooLong, 0));
    }
    let (header, count, first) = header_at(file)?;
    rest_at(file, header, count, first)
}
