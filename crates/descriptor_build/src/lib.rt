// Descriptors built from a run of entries.
//
// The run is judged first, so that storing has no fault to find. Then a loop goes over the entries,
// with the levels that still want members in an array.
#![tactic(auto)]

ghost use Rattle.std.specs.Prelude.{◌≡◌, [], ◌∷◌, ◌++◌, ◌+◌, ◌-◌, ◌*◌, ◌≤◌, ◌<◌, length};
ghost use Rattle.std.proofs.lemmas.List.Edits.{sets};
ghost use Rattle.algebra.specs.Numbers.{be};
ghost use Rattle.algebra.specs.Store.{part};
ghost use Rattle.algebra.specs.Table.{row_at, rows};
ghost use Rattle.fault.specs.Answer.{told_written};
ghost use Rattle.descriptor_heads.specs.Heads.{pairs, settled};
ghost use Rattle.descriptor_raw.specs.Raw.{due_of};
ghost use Rattle.descriptor_entry.specs.Pieces.{bytes};
ghost use Rattle.descriptor_entry.specs.Shapes.{width, number_in, kind_of, pieces_of, shape_of, object};
ghost use Rattle.descriptor_entry.specs.Entries.{key_pieces, field_pieces, head_pieces, root_pieces, asks, member_pieces, given, made, built};
ghost use Rattle.descriptor_build.specs.scaffold.Putting.{Ready, Stored, PutHead, Begun, Whole};

use descriptor_columns::Level;
use descriptor_entry::{Field, Shape, WIDTH};
use descriptor_entry_fields::{id_length, number_in, place_in};
use fault::Fault;

/// What storing a head leaves: the place behind it, what its row's children are, with the number of
/// objects, and how many.
#[derive(Clone, Copy, Debug, PartialEq, Eq)]
pub struct Put {
    pub end: usize,
    pub what: u32,
    pub objects: u32,
    pub count: u32,
}

// ---- single fields

// The part of the text that holds n bytes; where n is 0 its place may be any.
fn part_of(text: &[u8], first: usize, n: usize) -> &[u8]
    requires { length (part text.now first n) ≡ n }
    ensures { result.now ≡ part text.now first n }
{
    if n == 0 {
        return &text[..0];
    }
    let end = first + n;
    &text[first..end]
}

fn put_word(out: &mut [u8], at: usize, v: u32) -> usize
    requires { at + 4 ≤ length out.old }
    ensures { (out.new ≡ sets out.old at (be 4 v)) × (result ≡ at + 4) }
{
    fields::put_number(out, at, v);
    at + 4
}

// A `bool`.
fn put_flag(out: &mut [u8], at: usize, v: u32) -> usize
    requires { (at + 1 ≤ length out.old) × (v < 256) }
    ensures { (out.new ≡ sets out.old at (be 1 v)) × (result ≡ at + 1) }
{
    out[at] = v as u8;
    at + 1
}

// A number by its high and low 32 bits.
fn put_wide(out: &mut [u8], at: usize, high: u32, low: u32) -> usize
    requires { at + 8 ≤ length out.old }
    ensures { (out.new ≡ sets out.old at (be 8 (high * 4294967296 + low))) × (result ≡ at + 8) }
{
    let p = put_word(out, at, high);
    put_word(out, p, low)
}

// A length or count, and n bytes of the text.
fn put_counted(out: &mut [u8], at: usize, v: u32, text: &[u8], first: usize, n: usize) -> usize
    requires { (at + (4 + n) ≤ length out.old) × (length (part text.now first n) ≡ n) }
    ensures { (out.new ≡ sets out.old at (be 4 v ++ part text.now first n)) × (result ≡ at + (4 + n)) }
{
    fields::put_number(out, at, v);
    fields::put_run(out, at + 4, part_of(text, first, n));
    at + 4 + n
}

// A part by the numbers i and i + 1 of an entry, of n bytes.
fn put_part(out: &mut [u8], at: usize, text: &[u8], row: &[u32], i: usize, n: usize) -> usize
    requires { (at + (4 + n) ≤ length out.old) × (length (part text.now (number_in row.now (i + 1)) n) ≡ n) }
    ensures { (out.new ≡ sets out.old at (be 4 (number_in row.now i) ++ part text.now (number_in row.now (i + 1)) n)) × (result ≡ at + (4 + n)) }
{
    put_counted(out, at, number_in(row, i), text, place_in(row, i), n)
}

// A field of an entry; the place behind it.
fn put_field(out: &mut [u8], at: usize, text: &[u8], row: &[u32], field: Field) -> usize
    requires { Ready text.now (pieces_of 0 row.now field) at (length out.old) }
    ensures { Stored text.now (pieces_of 0 row.now field) out.old at out.new result }
{
    match field {
        Field::Nothing => at,
        Field::Word(i) => put_word(out, at, number_in(row, i)),
        Field::Measure => put_word(out, at, number_in(row, 11)),
        Field::ArrayMeasure => put_word(out, at, number_in(row, 11)),
        Field::Flag => put_flag(out, at, number_in(row, 13)),
        Field::Wide => put_wide(out, at, number_in(row, 12), number_in(row, 13)),
        Field::Double => put_wide(out, at, number_in(row, 12), number_in(row, 13)),
        Field::Id(i) => put_part(out, at, text, row, i, id_length(number_in(row, i))),
        Field::Text(i) => put_part(out, at, text, row, i, 2 * number_in(row, i) as usize),
        Field::Run(i) => put_part(out, at, text, row, i, number_in(row, i) as usize),
        Field::Doubles(i) => put_part(out, at, text, row, i, 8 * number_in(row, i) as usize),
    }
}

// ---- heads

// The fields behind a kind.
fn put_fields(out: &mut [u8], at: usize, text: &[u8], row: &[u32], shape: Shape) -> usize
    requires { Ready text.now (field_pieces 0 shape row.now) at (length out.old) }
    ensures { Stored text.now (field_pieces 0 shape row.now) out.old at out.new result }
{
    let p = put_field(out, at, text, row, shape.first);
    let q = put_field(out, p, text, row, shape.second);
    let r = put_field(out, q, text, row, shape.third);
    put_field(out, r, text, row, shape.fourth)
}

// A key, where a pair is due.
fn put_key(out: &mut [u8], at: usize, text: &[u8], row: &[u32], what: u32) -> usize
    requires { Ready text.now (key_pieces (due_of what 0) row.now) at (length out.old) }
    ensures { Stored text.now (key_pieces (due_of what 0) row.now) out.old at out.new result }
{
    if descriptor_entry_fields::is_keyed(what) {
        return put_field(out, at, text, row, Field::Id(1));
    }
    at
}

// A member's head.
fn put_head(out: &mut [u8], at: usize, text: &[u8], row: &[u32], what: u32) -> Put
    requires { Ready text.now (head_pieces (due_of what 0) row.now) at (length out.old) }
    ensures { PutHead text.now (head_pieces (due_of what 0) row.now) (asks (shape_of (due_of what 0) (kind_of row.now)) 0 0 0 row.now) out.old at out.new result }
{
    let kind = number_in(row, 0);
    let shape = descriptor_entry_fields::shape_of(what, kind);
    let count = descriptor_entry_fields::members_in(row, shape);
    let below = shape.below.unwrap_or(0);
    let objects = number_in(row, 15);
    let p = put_key(out, at, text, row, what);
    let q = put_word(out, p, kind);
    let end = put_fields(out, q, text, row, shape);
    Put {
        end,
        what: below,
        objects,
        count,
    }
}

// That of the entry k.
fn put_at(out: &mut [u8], at: usize, entries: &[u32], text: &[u8], k: usize, what: u32) -> Put
    requires { (width * k + width ≤ length entries.now) × Ready text.now (head_pieces (due_of what 0) (row_at width entries.now k)) at (length out.old) }
    ensures { PutHead text.now (head_pieces (due_of what 0) (row_at width entries.now k)) (asks (shape_of (due_of what 0) (kind_of (row_at width entries.now k))) 0 0 0 (row_at width entries.now k)) out.old at out.new result }
{
    let first = WIDTH * k;
    put_head(out, at, text, &entries[first..first + WIDTH], what)
}

// The root's head.
fn put_root(out: &mut [u8], text: &[u8], row: &[u32]) -> usize
    requires { Ready text.now (root_pieces row.now) 0 (length out.old) }
    ensures { Stored text.now (root_pieces row.now) out.old 0 out.new result }
{
    let p = put_word(out, 0, 16);
    put_fields(out, p, text, row, descriptor_entry_fields::root_shape())
}

// That of the first entry.
fn put_first(out: &mut [u8], entries: &[u32], text: &[u8]) -> usize
    requires { (width ≤ length entries.now) × Ready text.now (root_pieces (row_at width entries.now 0)) 0 (length out.old) }
    ensures { Stored text.now (root_pieces (row_at width entries.now 0)) out.old 0 out.new result }
{
    put_root(out, text, &entries[..WIDTH])
}

// ---- the run

// The entries behind the root's, whose head ends at `start` and wants `count` members.
fn put_members(out: &mut [u8], entries: &[u32], text: &[u8], n: usize, start: usize, count: u32)
    requires { Begun text.now entries.now n start count (length out.old) }
    ensures { out.new ≡ sets out.old start (bytes text.now (member_pieces (rows width (λ row. row) entries.now (n - 1) 1) (settled ((pairs, count) ∷ [])))) }
{
    let mut saved = [Level {
        what: 0,
        objects: 0,
        left: 0,
        row: 0,
        first: 0,
    }; 33];
    let mut d: usize = 0;
    let mut what: u32 = 1;
    let mut objects: u32 = 0;
    let mut left = count;
    let mut p = start;
    let mut k: usize = 1;
    loop {
        if left == 0 {
            if d == 0 {
                return;
            }
            d -= 1;
            let level = saved[d];
            what = level.what;
            objects = level.objects;
            left = level.left;
            continue;
        }
        let head = put_at(out, p, entries, text, k, what);
        p = head.end;
        left -= 1;
        k += 1;
        if head.count == 0 {
            continue;
        }
        saved[d] = Level {
            what,
            objects,
            left,
            row: 0,
            first: 0,
        };
        d += 1;
        what = head.what;
        objects = head.objects;
        left = head.count;
    }
}

// All entries of a run that has no fault.
fn put_all(out: &mut [u8], entries: &[u32], text: &[u8])
    requires { Whole text.now entries.now (length out.old) }
    ensures { out.new ≡ sets out.old 0 (made text.now (given entries.now)) }
{
    let n = entries.len() / WIDTH;
    let p = put_first(out, entries, text);
    put_members(out, entries, text, n, p, number_in(entries, 14));
}

/// Builds the descriptor of a run of entries, whose parts lie in `text`, in `out`; a refusal changes
/// nothing.
pub fn write(entries: &[u32], text: &[u8], out: &mut [u8]) -> Result<usize, Fault>
    ensures { (told_written result, out.new) ≡ built text.now (given entries.now) out.old }
{
    let size = descriptor_build_judge::write_length(entries, text)?;
    if out.len() < size {
        return Err(Fault::NoRoom);
    }
    put_all(out, entries, text);
    Ok(size)
}
