// ACB colour books: what a file shows. A record's components and full name, and a page's sample, which a
// table of records shows too.
#![tactic(auto)]

ghost use Rattle.std.specs.Prelude.{◌≡◌, ◌++◌, map, ◌+◌, ◌-◌, ◌*◌, ◌≤◌, length};
ghost use Rattle.std.proofs.lemmas.List.Edits.{sets};
ghost use Rattle.algebra.specs.Store.{part};
ghost use Rattle.acb.specs.Reading.{acb, components_of};
ghost use Rattle.acb_shown_values.specs.Texts.{shown_text};
ghost use Rattle.algebra.specs.Table.{rows};
ghost use Rattle.acb.specs.Row.{width, taken};
ghost use Rattle.acb_read.specs.Walked.{walked};
ghost use Rattle.acb_shown_values.specs.Pages.{sample_from, sample_of};
ghost use Rattle.acb_shown_values.specs.Answer.{told_page, page_of};
ghost use Rattle.acb_shown_file.specs.View.{counted, values_of, shown_at, unnamed, dummies_in, page_at, full_length, full_name_at};
ghost use Rattle.acb_shown_file.specs.Answer.{told_count, told_values, told_components};

use acb::WIDTH;
use fault::{Fault, Refusal};
use names::Name;

/// The shown components of a record, 0 in the place that its space does not use, and how many they
/// are.
#[derive(Clone, Copy)]
pub struct Components {
    pub values: [i16; 4],
    pub count: usize,
}

// ---- components

// The shown components of a record of a space.
fn values(space: u16, bytes: [u8; 4]) -> Components
    ensures { told_values result ≡ (values_of space bytes, counted (components_of space)) }
{
    let a = acb_shown_values::shown_component(space, 0, bytes[0]);
    let b = acb_shown_values::shown_component(space, 1, bytes[1]);
    let c = acb_shown_values::shown_component(space, 2, bytes[2]);
    let n = acb_judge::components_of(space);
    if n == 4 {
        let d = acb_shown_values::shown_component(space, 3, bytes[3]);
        return Components {
            values: [a, b, c, d],
            count: n,
        };
    }
    Components {
        values: [a, b, c, 0],
        count: n,
    }
}

/// The shown components of record i of a file.
pub fn shown_at(file: &[u8], i: usize) -> Result<Components, Refusal>
    ensures { told_components result ≡ shown_at i (acb file.now) }
{
    let book = acb_judge::judge(file)?;
    if book.count <= i {
        return Err(Refusal(Fault::NoRecord, 0));
    }
    let swatch = acb_read::record_at(file, i)?;
    Ok(values(book.header.space, swatch.components))
}

// ---- pages

/// The sample among the records from i to before `end` of a book of a space, where record i stands at
/// `at`.
pub fn sample_at(
    file: &[u8],
    space: u16,
    at: usize,
    i: usize,
    end: usize,
    offset: usize,
) -> Result<usize, Refusal>
    ensures { told_page result ≡ page_of (sample_from i offset (map unnamed (walked space file.now at (end - i)))) }
{
    let mut found = Err(Refusal(Fault::NoRecord, 0));
    let mut left = offset;
    let mut p = at;
    for k in i..end {
        let (units, next) = acb_read::units_at(file, p, space);
        p = next;
        if units != 0 {
            if left == 0 {
                return Ok(k);
            }
            found = Ok(k);
            left -= 1;
        }
    }
    found
}

/// The record that a page of a file shows.
pub fn page_at(file: &[u8], page: usize) -> Result<usize, Refusal>
    ensures { told_page result ≡ page_at page (acb file.now) }
{
    let book = acb_judge::judge(file)?;
    let header = book.header;
    let Some((i, end)) = acb_shown_values::page_records(book.count, header.size, page) else {
        return Err(Refusal(Fault::NoRecord, 0));
    };
    let at = acb_read::place_at(file, book.first, header.space, i);
    sample_at(file, header.space, at, i, end, header.offset as usize)
}

// The sample among the records of a table from `first` to before `end`.
fn sample_in(table: &[u32], first: usize, end: usize, offset: usize) -> Result<usize, Refusal>
    requires { width * end ≤ length table.now }
    ensures { told_page result ≡ page_of (sample_from first offset (map unnamed (rows width taken table.now (end - first) first))) }
{
    let mut found = Err(Refusal(Fault::NoRecord, 0));
    let mut left = offset;
    for i in first..end {
        let given = acb_write_judge::record_at(table, i);
        if given.name.units != 0 {
            if left == 0 {
                return Ok(i);
            }
            found = Ok(i);
            left -= 1;
        }
    }
    found
}

/// The record that a page of `size` records shows, of the `count` records of a table; those past the
/// table's end are no records.
pub fn page_in(
    table: &[u32],
    count: usize,
    size: u16,
    offset: u16,
    page: usize,
) -> Result<usize, Refusal>
    ensures { told_page result ≡ page_of (sample_of size offset page (dummies_in table.now count)) }
{
    let n = count.min(table.len() / WIDTH);
    let Some((first, end)) = acb_shown_values::page_records(n, size, page) else {
        return Err(Refusal(Fault::NoRecord, 0));
    };
    sample_in(table, first, end, offset as usize)
}

// ---- full names

// The shown text of a string that lies in the file.
fn text_in(file: &[u8], text: Name) -> &[u8]
    requires { text.first + 2 * text.units ≤ length file.now }
    ensures { result.now ≡ shown_text (part file.now text.first (2 * text.units)) }
{
    let start = text.first;
    let end = start + 2 * (text.units as usize);
    acb_shown_values::shown_text(&file[start..end])
}

// Three runs one after the other from the start of `out`, which has room for them.
fn put_three(out: &mut [u8], a: &[u8], b: &[u8], c: &[u8])
    requires { length a.now + length b.now + length c.now ≤ length out.old }
    ensures { out.new ≡ sets out.old 0 (a.now ++ (b.now ++ c.now)) }
{
    fields::put_run(out, 0, a);
    fields::put_run(out, a.len(), b);
    fields::put_run(out, a.len() + b.len(), c);
}

/// The length in bytes of the full name of record i of a file: the prefix's text, the name, the
/// suffix's text.
pub fn full_length(file: &[u8], i: usize) -> Result<usize, Refusal>
    ensures { told_count result ≡ full_length file.now i (acb file.now) }
{
    let book = acb_judge::judge(file)?;
    if book.count <= i {
        return Err(Refusal(Fault::NoRecord, 0));
    }
    let prefix = text_in(file, book.header.prefix);
    let name = acb_read::name_at(file, i);
    let suffix = text_in(file, book.header.suffix);
    Ok(prefix.len() + name.len() + suffix.len())
}

/// Writes the full name of record i of a file from the start of `out`, and answers its length.
pub fn full_name(file: &[u8], i: usize, out: &mut [u8]) -> Result<usize, Refusal>
    ensures { (told_count result, out.new) ≡ full_name_at file.now i (acb file.now) out.old }
{
    let book = acb_judge::judge(file)?;
    if book.count <= i {
        return Err(Refusal(Fault::NoRecord, 0));
    }
    let prefix = text_in(file, book.header.prefix);
    let name = acb_read::name_at(file, i);
    let suffix = text_in(file, book.header.suffix);
    let n = prefix.len() + name.len() + suffix.len();
    if out.len() < n {
        return Err(Refusal(Fault::NoRoom, 0));
    }
    put_three(out, prefix, name, suffix);
    Ok(n)
}
