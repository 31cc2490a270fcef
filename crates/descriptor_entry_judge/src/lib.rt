// Descriptors to be built: one entry, judged and measured as the reader would judge the head made of it.
#![tactic(auto)]

ghost use Rattle.std.specs.Prelude.{◌≡◌, ◌+◌, ◌*◌, ◌<◌, leb, eqb};
ghost use Rattle.std.specs.Float.{binary64};
ghost use Rattle.std.specs.Float.Ieee.{of_bits};
ghost use Rattle.std.specs.Float.Ieee.Scale.{finite};
ghost use Rattle.algebra.specs.Chars.{chars};
ghost use Rattle.algebra.specs.Reader.{pick, body, each, number_of};
ghost use Rattle.algebra.specs.Faults.{first_of};
ghost use Rattle.descriptor.specs.Reading.{double, is_unit, is_array_unit};
ghost use Rattle.descriptor_raw.specs.Raw.{due_of};
ghost use Rattle.descriptor_entry.specs.Pieces.{units, size, fault, fault_of};
ghost use Rattle.descriptor_entry.specs.Shapes.{kind_of, pieces_of, object, shape_of};
ghost use Rattle.descriptor_entry.specs.Entries.{key_pieces, objects_due, field_pieces, head_pieces, root_pieces, asks};
ghost use Rattle.descriptor_entry_judge.specs.Judging.{told_fault, Judges};
ghost use Rattle.descriptor_entry_judge.specs.scaffold.Parts.{Sized, FourSized, head_fault};

use descriptor_entry::{Field, Shape};
use descriptor_entry_fields::{is_keyed, members_in, number_in, place_in};
use descriptor_judge::LIMIT;
use fault::{Fault, Refusal};

/// What is found of one head: how many bytes it takes, its first fault, what its row's children are,
/// with the number of objects, and how many.
#[derive(Clone, Copy, Debug, PartialEq, Eq)]
pub struct Judged {
    pub size: usize,
    pub sound: Result<(), Fault>,
    pub what: u32,
    pub objects: u32,
    pub count: u32,
}

// ---- how long a head is

// How many bytes a field takes.
fn some_size(row: &[u32], field: Field) -> usize
    ensures { Sized (size (pieces_of 0 row.now field)) result }
{
    match field {
        Field::Nothing => 0,
        Field::Word(_) => 4,
        Field::Measure => 4,
        Field::ArrayMeasure => 4,
        Field::Flag => 1,
        Field::Wide => 8,
        Field::Double => 8,
        Field::Id(i) => 4 + descriptor_entry_fields::id_length(number_in(row, i)),
        Field::Text(i) => 4 + 2 * number_in(row, i) as usize,
        Field::Run(i) => 4 + number_in(row, i) as usize,
        Field::Doubles(i) => 4 + 8 * number_in(row, i) as usize,
    }
}

// The same, with no call where there is no field.
fn field_size(row: &[u32], field: Field) -> usize
    ensures { Sized (size (pieces_of 0 row.now field)) result }
{
    match field {
        Field::Nothing => 0,
        _ => some_size(row, field),
    }
}

// How many bytes the fields behind a kind take.
fn fields_size(row: &[u32], shape: Shape) -> usize
    ensures { FourSized (size (field_pieces 0 shape row.now)) result }
{
    field_size(row, shape.first)
        + field_size(row, shape.second)
        + field_size(row, shape.third)
        + field_size(row, shape.fourth)
}

// How many bytes a key takes, where a pair is due.
fn key_size(row: &[u32], what: u32) -> usize
    ensures { Sized (size (key_pieces (due_of what 0) row.now)) result }
{
    if is_keyed(what) {
        return 4 + descriptor_entry_fields::id_length(number_in(row, 1));
    }
    0
}

// ---- judging single fields

// The fault of a part of the text.
fn run_fault(text: &[u8], first: usize, n: usize) -> Result<(), Fault>
    ensures { told_fault result ≡ number_of (body 1 n text.now first) }
{
    match fields::run_at(text, first, n) {
        Ok(_) => Ok(()),
        Err(Refusal(fault, _)) => Err(fault),
    }
}

// The fault of n units, of which only the last is looked at.
fn units_fault(text: &[u8], first: usize, n: usize) -> Result<(), Fault>
    requires { (first < 4294967296) × (n < 4294967296) }
    ensures { told_fault result ≡ fault_of text.now (units first n) }
{
    if n == 0 {
        return Ok(());
    }
    run_fault(text, first, 2 * n)?;
    if fields::number_or_zero::<u16>(text, first + 2 * n - 2) != 0 {
        return Err(Fault::BadlyClosed);
    }
    Ok(())
}

// The first fault of n doubles.
fn doubles_fault(text: &[u8], first: usize, n: usize) -> Result<(), Fault>
    ensures { told_fault result ≡ number_of (each n 0 (λ i. double) text.now first) }
{
    let mut p = first;
    for i in 0..n {
        match descriptor_fields::double_at(text, p) {
            Ok(next) => {
                p = next;
            }
            Err(Refusal(fault, _)) => {
                return Err(fault);
            }
        }
    }
    Ok(())
}

// The same behind their count, which is the number of objects.
fn column_fault(text: &[u8], objects: u32, n: u32, first: usize) -> Result<(), Fault>
    ensures { told_fault result ≡ first_of (pick (eqb n objects) 0 5) (number_of (each n 0 (λ i. double) text.now first)) }
{
    if n == objects {
        return doubles_fault(text, first, n as usize);
    }
    Err(Fault::OutOfRange)
}

fn unit_fault(tag: u32) -> Result<(), Fault>
    ensures { told_fault result ≡ pick (is_unit tag) 0 4 }
{
    if descriptor_fields::is_unit(tag) {
        return Ok(());
    }
    Err(Fault::Unknown)
}

fn array_unit_fault(tag: u32) -> Result<(), Fault>
    ensures { told_fault result ≡ pick (is_array_unit tag) 0 4 }
{
    if descriptor_fields::is_array_unit(tag) {
        return Ok(());
    }
    Err(Fault::Unknown)
}

fn flag_fault(value: u32) -> Result<(), Fault>
    ensures { told_fault result ≡ pick (leb value 1) 0 5 }
{
    if value <= 1 {
        return Ok(());
    }
    Err(Fault::OutOfRange)
}

// The fault of a double by its high and low 32 bits.
fn double_fault(high: u32, low: u32) -> Result<(), Fault>
    ensures { told_fault result ≡ pick (finite (of_bits binary64 (high * 4294967296 + low))) 0 5 }
{
    let bits = u64::from(high) * 4294967296 + u64::from(low);
    if bits % 0x8000_0000_0000_0000 < 0x7ff0_0000_0000_0000 {
        return Ok(());
    }
    Err(Fault::OutOfRange)
}

// The fault of a field, in an object array of so many objects.
fn field_fault(text: &[u8], row: &[u32], objects: u32, field: Field) -> Result<(), Fault>
    ensures { told_fault result ≡ fault text.now (pieces_of objects row.now field) }
{
    match field {
        Field::Nothing => Ok(()),
        Field::Word(_) => Ok(()),
        Field::Measure => unit_fault(number_in(row, 11)),
        Field::ArrayMeasure => array_unit_fault(number_in(row, 11)),
        Field::Flag => flag_fault(number_in(row, 13)),
        Field::Wide => Ok(()),
        Field::Double => double_fault(number_in(row, 12), number_in(row, 13)),
        Field::Id(i) => run_fault(
            text,
            place_in(row, i),
            descriptor_entry_fields::id_length(number_in(row, i)),
        ),
        Field::Text(i) => units_fault(text, place_in(row, i), number_in(row, i) as usize),
        Field::Run(i) => run_fault(text, place_in(row, i), number_in(row, i) as usize),
        Field::Doubles(i) => column_fault(text, objects, number_in(row, i), place_in(row, i)),
    }
}

// The first fault of the fields behind a kind.
fn fields_fault(text: &[u8], row: &[u32], objects: u32, shape: Shape) -> Result<(), Fault>
    ensures { told_fault result ≡ fault text.now (field_pieces objects shape row.now) }
{
    field_fault(text, row, objects, shape.first)?;
    field_fault(text, row, objects, shape.second)?;
    field_fault(text, row, objects, shape.third)?;
    field_fault(text, row, objects, shape.fourth)
}

// The fault of a key, where a pair is due.
fn key_fault(text: &[u8], row: &[u32], what: u32) -> Result<(), Fault>
    ensures { told_fault result ≡ fault text.now (key_pieces (due_of what 0) row.now) }
{
    if is_keyed(what) {
        return field_fault(text, row, 0, Field::Id(1));
    }
    Ok(())
}

// ---- judging a head

// How many objects the array has whose pair is due.
fn objects_due(what: u32, objects: u32) -> u32
    ensures { result ≡ objects_due (due_of what objects) }
{
    if 2 < what { objects } else { 0 }
}

// The fault of a head: of its key, then of its kind, then of its fields.
fn head_fault(text: &[u8], row: &[u32], what: u32, objects: u32, shape: Shape) -> Result<(), Fault>
    ensures { told_fault result ≡ head_fault text.now row.now (due_of what 0) (objects_due (due_of what objects)) shape }
{
    key_fault(text, row, what)?;
    if shape.known {
        return fields_fault(text, row, objects_due(what, objects), shape);
    }
    Err(Fault::Unknown)
}

/// A member's head. One that is over the limit by itself is not judged further.
pub fn judge_head(row: &[u32], text: &[u8], what: u32, objects: u32) -> Judged
    ensures { Judges text.now (head_pieces (due_of what objects) row.now) (asks (shape_of (due_of what objects) (kind_of row.now)) 0 0 0 row.now) result }
{
    let shape = descriptor_entry_fields::shape_of(what, number_in(row, 0));
    let size = key_size(row, what) + 4 + fields_size(row, shape);
    let count = members_in(row, shape);
    let below = shape.below.unwrap_or(0);
    let arity = number_in(row, 15);
    if LIMIT < size {
        return Judged {
            size,
            sound: Ok(()),
            what: below,
            objects: arity,
            count,
        };
    }
    let sound = head_fault(text, row, what, objects, shape);
    Judged {
        size,
        sound,
        what: below,
        objects: arity,
        count,
    }
}

// The root's fault: of its kind, then of its fields.
fn root_fault(text: &[u8], row: &[u32], shape: Shape) -> Result<(), Fault>
    ensures { told_fault result ≡ first_of (pick (eqb (kind_of row.now) (chars "Objc")) 0 4) (fault text.now (field_pieces 0 shape row.now)) }
{
    if number_in(row, 0) == descriptor::OBJECT {
        return fields_fault(text, row, 0, shape);
    }
    Err(Fault::Unknown)
}

/// The root's head.
pub fn judge_root(row: &[u32], text: &[u8]) -> Judged
    ensures { Judges text.now (root_pieces row.now) (asks object 0 0 0 row.now) result }
{
    let shape = descriptor_entry_fields::root_shape();
    let size = 4 + fields_size(row, shape);
    let count = number_in(row, 14);
    let arity = number_in(row, 15);
    if LIMIT < size {
        return Judged {
            size,
            sound: Ok(()),
            what: 1,
            objects: arity,
            count,
        };
    }
    let sound = root_fault(text, row, shape);
    Judged {
        size,
        sound,
        what: 1,
        objects: arity,
        count,
    }
}
