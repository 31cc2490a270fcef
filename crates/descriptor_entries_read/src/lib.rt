// The entries of an accepted descriptor, its own bytes being their text: 16 numbers a row, from which
// the file can be built again (theorem: proofs/Built.antt of `descriptor_entries`).
//
// A file is judged first, so that the number of its rows is known. Then a loop goes over its heads,
// without judging again, with the levels that are open in an array. An entry is made in an array of
// its own, by the fields of its kind, and stored as a row.
#![tactic(auto)]

ghost use Rattle.std.specs.Prelude.{◌≡◌, ◌+◌, ◌*◌, ◌≤◌, ◌<◌, length, set};
ghost use Rattle.std.proofs.lemmas.List.Edits.{sets};
ghost use Rattle.algebra.specs.Numbers.{num};
ghost use Rattle.descriptor_heads.specs.Heads.{items};
ghost use Rattle.descriptor_judge.specs.Answer.{told};
ghost use Rattle.descriptor_raw.specs.Raw.{due_of};
ghost use Rattle.descriptor_entry.specs.Shapes.{width, fields_of};
ghost use Rattle.descriptor_entries.specs.Taken.{put, span, put_all, put_key, entry_of};
ghost use Rattle.descriptor_entries.specs.Answered.{numbers, entered};
ghost use Rattle.descriptor_entries.specs.scaffold.Spans.{end_of, key_span};
ghost use Rattle.descriptor_entries_read.specs.scaffold.Filling.{Inside, head_with, Begun, rest};

use descriptor_columns::Level;
use descriptor_entry::{Field, Shape, WIDTH};
use fault::{Fault, Refusal};

// ---- one field, at a place of the file

// A number of an entry; one past its end is left out.
fn put_at(entry: &mut [u32; 16], i: usize, v: u32)
    requires { length entry.old ≡ 16 }
    ensures { entry.new ≡ set entry.old i v }
{
    if i < WIDTH {
        entry[i] = v;
    }
}

// A word; the place behind it.
fn put_word(file: &[u8], at: usize, entry: &mut [u32; 16], i: usize) -> usize
    requires { (length entry.old ≡ 16) × (at + 4 ≤ length file.now) }
    ensures { (entry.new ≡ set entry.old i (num 4 file.now at)) × (result ≡ at + 4) }
{
    put_at(entry, i, fields::number_or_zero::<u32>(file, at));
    at + 4
}

// A `bool`.
fn put_flag(file: &[u8], at: usize, entry: &mut [u32; 16]) -> usize
    requires { (length entry.old ≡ 16) × (at + 1 ≤ length file.now) }
    ensures { (entry.new ≡ set entry.old 13 (num 1 file.now at)) × (result ≡ at + 1) }
{
    put_at(entry, 13, u32::from(file[at]));
    at + 1
}

// A number's high and low 32 bits.
fn put_wide(file: &[u8], at: usize, entry: &mut [u32; 16]) -> usize
    requires { (length entry.old ≡ 16) × (at + 8 ≤ length file.now) }
    ensures { (entry.new ≡ set (set entry.old 12 (num 4 file.now at)) 13 (num 4 file.now (at + 4))) × (result ≡ at + 8) }
{
    let low = put_word(file, at, entry, 12);
    put_word(file, low, entry, 13)
}

// A length or count, which is the answer, and the place of its bytes, behind it.
fn put_part(file: &[u8], at: usize, entry: &mut [u32; 16], i: usize) -> u32
    requires { (length entry.old ≡ 16) × (at + 4 ≤ length file.now) × (length file.now ≤ 16777216) }
    ensures { (entry.new ≡ set (set entry.old i (num 4 file.now at)) (i + 1) (at + 4)) × (result ≡ num 4 file.now at) }
{
    let n = fields::number_or_zero::<u32>(file, at);
    if i < WIDTH {
        put_at(entry, i, n);
        put_at(entry, i + 1, (at + 4) as u32);
    }
    n
}

// A field; the place behind it.
fn put_field(file: &[u8], at: usize, field: Field, entry: &mut [u32; 16]) -> usize
    requires { (length entry.old ≡ 16) × (at + span file.now at field ≤ length file.now) × (length file.now ≤ 16777216) }
    ensures { (entry.new ≡ put file.now at field entry.old) × (result ≡ at + span file.now at field) }
{
    match field {
        Field::Nothing => at,
        Field::Word(i) => put_word(file, at, entry, i),
        Field::Measure => put_word(file, at, entry, 11),
        Field::ArrayMeasure => put_word(file, at, entry, 11),
        Field::Flag => put_flag(file, at, entry),
        Field::Wide => put_wide(file, at, entry),
        Field::Double => put_wide(file, at, entry),
        Field::Id(i) => at + 4 + descriptor_entry_fields::id_length(put_part(file, at, entry, i)),
        Field::Text(i) => at + 4 + 2 * put_part(file, at, entry, i) as usize,
        Field::Run(i) => at + 4 + put_part(file, at, entry, i) as usize,
        Field::Doubles(i) => at + 4 + 8 * put_part(file, at, entry, i) as usize,
    }
}

// ---- one head

// The fields of a kind, in their order.
fn put_fields(file: &[u8], at: usize, shape: Shape, entry: &mut [u32; 16])
    requires { (length entry.old ≡ 16) × (end_of file.now at (fields_of shape) ≤ length file.now) × (length file.now ≤ 16777216) }
    ensures { entry.new ≡ put_all file.now at (fields_of shape) entry.old }
{
    let p = put_field(file, at, shape.first, entry);
    let q = put_field(file, p, shape.second, entry);
    let r = put_field(file, q, shape.third, entry);
    put_field(file, r, shape.fourth, entry);
}

// The key, where the members that are due have one.
fn put_key(file: &[u8], at: usize, what: u32, entry: &mut [u32; 16])
    requires { (length entry.old ≡ 16) × (at + key_span file.now at (due_of what 0) ≤ length file.now) × (length file.now ≤ 16777216) }
    ensures { entry.new ≡ put_key file.now at (due_of what 0) entry.old }
{
    if descriptor_entry_fields::is_keyed(what) {
        put_field(file, at, Field::Id(1), entry);
    }
}

// The entry of a head at a place, of a kind, whose value begins at `value`.
fn entry_at(file: &[u8], what: u32, at: usize, kind: u32, value: usize) -> [u32; 16]
    requires { Inside file.now (due_of what 0) at kind value }
    ensures { result ≡ entry_of file.now (due_of what 0) (head_with kind at value) }
{
    let mut entry = [0; 16];
    entry[0] = kind;
    put_key(file, at, what, &mut entry);
    put_fields(
        file,
        value,
        descriptor_entry_fields::shape_of(what, kind),
        &mut entry,
    );
    entry
}

// ---- the rows

// Stores an entry as a row; no other function stores one.
fn put_row(run: &mut [u32], to: usize, row: [u32; 16])
    requires { to + width ≤ length run.old }
    ensures { run.new ≡ sets run.old to row }
{
    run[to..to + WIDTH].copy_from_slice(&row);
}

// The entries of the rows behind the root's; the root's head ends at `start`.
fn fill(file: &[u8], run: &mut [u32], rows: usize, due: u32, arity: u32, count: u32, start: usize)
    requires { (Begun file.now due arity count start rows) × (width * rows ≤ length run.old) }
    ensures { run.new ≡ sets run.old width (numbers (rest file.now due arity count start)) }
{
    let mut saved = [Level {
        what: 0,
        objects: 0,
        left: 0,
        row: 0,
        first: 0,
    }; 33];
    let mut d: usize = 0;
    let mut what = due;
    let mut objects = arity;
    let mut left = count;
    let mut at = start;
    let mut k: usize = 1;
    loop {
        if left == 0 {
            if d == 0 {
                return;
            }
            d -= 1;
            let level = saved[d];
            what = level.what;
            objects = level.objects;
            left = level.left;
            continue;
        }
        left -= 1;
        let head = descriptor_raw::head_at(file, what, objects, at);
        let entry = entry_at(file, what, at, head.kind, head.value);
        put_row(run, WIDTH * k, entry);
        if head.count == 0 {
            at = head.end;
            k += 1;
            continue;
        }
        saved[d] = Level {
            what,
            objects,
            left,
            row: 0,
            first: 0,
        };
        d += 1;
        what = head.what;
        objects = head.objects;
        left = head.count;
        at = head.end;
        k += 1;
    }
}

/// The entries of a file, its own bytes being their text: how many rows it has, or the refusal, which
/// changes nothing; 11 where the run is shorter than 16 numbers a row. Past them it keeps its contents.
pub fn entries(file: &[u8], run: &mut [u32]) -> Result<usize, Refusal>
    ensures { (told result, run.new) ≡ entered file.now run.old }
{
    let rows = descriptor_judge::judge(file)?;
    if run.len() / WIDTH < rows {
        return Err(Refusal(Fault::NoRoom, 0));
    }
    let root = descriptor_raw::root_head(file);
    put_row(run, 0, entry_at(file, 0, 0, root.kind, root.value));
    fill(
        file,
        run,
        rows,
        root.what,
        root.objects,
        root.count,
        root.end,
    );
    Ok(rows)
}
