// Lists the resource section on standard input, or that of the document there: its header, a line a
// block, `end`; or the refusal.
#![tactic(auto)]

ghost use Rattle.std.specs.Prelude.{◌≡◌, ◌+◌, ◌≤◌, ◌<◌, length, take};
ghost use Rattle.algebra.specs.Table.{verdict};
ghost use Rattle.resource.specs.Reading.{resources};
ghost use Rattle.resource_document.specs.Reading.{document};
ghost use Rattle.resource_document.specs.Answer.{told};
ghost use Rattle.resource_read.specs.scaffold.Parts.{rest, Sound};
ghost use Rattle.listing.specs.Buffer.{put_all};
ghost use Rattle.listing.specs.Text.{lines};
ghost use Rattle.resource_list.specs.Listing.{line, most, reached, section_of, listing};
ghost use Rattle.resource_list.specs.Listing.{section as Listing·section};
ghost use Rattle.resource_list.specs.scaffold.Parts.{shown, Lying};

use fault::{Fault, Refusal};
use listing::{finish, put, put_name, put_number, put_refusal, put_text, put_word, take_input};
use resource::Record;
use resource_document::Section;

// The longest section that is listed, and the last place where that of a document may end.
const TAKEN: usize = 65536;
// `8BPS`, with which a document begins.
const DOCUMENT: u32 = 0x3842_5053;

// A block's line.
fn put_block(
    out: &mut [u8],
    n: usize,
    section: &[u8],
    first: usize,
    i: usize,
    given: Record,
) -> usize
    requires { Lying section.now first given }
    ensures { (out.new, result) ≡ put_all (out.old, n) (shown section.now first i given) }
{
    let mut at = put_number(out, n, i as u64);
    at = put_word(out, at, given.id as u64);
    at = put(out, at, b' ');
    let from = given.name;
    let end = from + given.letters;
    at = put_name(out, at, &section[from..end]);
    let place = first + given.payload;
    at = put_word(out, at, place as u64);
    at = put_word(out, at, given.size as u64);
    put(out, at, b'\n')
}

// The lines of the blocks of a section that was accepted, of so many blocks.
fn put_blocks(out: &mut [u8], n: usize, section: &[u8], blocks: usize, first: usize) -> usize
    requires { Sound section.now 0 × (length (rest section.now 0) ≡ blocks) × (first + length section.now ≤ most) }
    ensures { (out.new, result) ≡ put_all (out.old, n) (lines (line first) 0 (rest section.now 0)) }
{
    let mut full = n;
    let mut at: usize = 0;
    for i in 0..blocks {
        let Ok((given, next)) = resource_judge::block_at(section, at) else {
            return full;
        };
        full = put_block(out, full, section, first, i, given);
        at = next;
    }
    full
}

// A section that begins at the place `first` of the input.
fn put_section(out: &mut [u8], section: &[u8], first: usize) -> usize
    requires { first + length section.now ≤ most }
    ensures { (out.new, result) ≡ put_all (out.old, 0) (Listing·section first (resources section.now)) }
{
    match resource_judge::judge(section) {
        Err(refused) => put_refusal(out, refused.0.number(), first + refused.1),
        Ok(blocks) => {
            let mut at = put_text(out, 0, b"8BIM");
            at = put_word(out, at, blocks as u64);
            at = put(out, at, b'\n');
            at = put_blocks(out, at, section, blocks, first);
            put_text(out, at, b"end\n")
        }
    }
}

// Where the section of a document lies, which may be longer than what is listed.
fn section_within(file: &[u8]) -> Result<Section, Refusal>
    ensures { told result ≡ reached (length file.now) (verdict (λ v. v) (document file.now)) }
{
    match resource_document::resources(file) {
        Ok(section) => {
            if TAKEN < section.first + section.size {
                return Err(Refusal(Fault::TooLong, 0));
            }
            Ok(section)
        }
        Err(refusal) => {
            if file.len() <= TAKEN {
                return Err(refusal);
            }
            if refusal.0 == Fault::Short {
                return Err(Refusal(Fault::TooLong, 0));
            }
            Err(refusal)
        }
    }
}

// Where the section of an input lies.
fn section_of(file: &[u8]) -> Result<Section, Refusal>
    ensures { told result ≡ section_of file.now }
{
    if fields::number_or_zero::<u32>(file, 0) == DOCUMENT {
        return section_within(file);
    }
    if TAKEN < file.len() {
        return Err(Refusal(Fault::TooLong, 0));
    }
    Ok(Section {
        first: 0,
        size: file.len(),
    })
}

fn put_listing(out: &mut [u8], file: &[u8]) -> usize
    ensures { (out.new, result) ≡ put_all (out.old, 0) (listing file.now) }
{
    match section_of(file) {
        Err(refused) => put_refusal(out, refused.0.number(), refused.1),
        Ok(Section { first, size }) => {
            let end = first + size;
            put_section(out, &file[first..end], first)
        }
    }
}

// Takes standard input. The buffer has room for a byte more than is listed, so that a longer input is
// not cut to one that is; of a longer document that byte is enough.
fn take_file(input: &mut [u8]) -> usize
    requires { 65536 < length input.old }
    ensures { (result ≤ length input.new) × (result ≡ length (take result input.new)) }
{
    take_input(input)
}

fn main() {
    let mut input = [0u8; TAKEN + 1];
    let mut out = [0u8; 16384];
    let n = take_file(&mut input);
    let full = put_listing(&mut out, &input[..n]);
    finish(&out, full);
}
