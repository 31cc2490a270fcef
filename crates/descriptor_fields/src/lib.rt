// Descriptors: their fields at a place of a file.
//
// Each reader takes any place, and answers where its field ends, or a refusal.
#![tactic(auto)]

ghost use Rattle.std.specs.Prelude.{◌≡◌, ◌+◌, ◌*◌, ◌<◌, length};
ghost use Rattle.algebra.specs.Numbers.{num};
ghost use Rattle.fault.specs.Answer.{told_end};
ghost use Rattle.std.specs.Float.{binary64};
ghost use Rattle.std.specs.Float.Ieee.{of_bits};
ghost use Rattle.std.specs.Float.Ieee.Scale.{finite};
ghost use Rattle.algebra.specs.Reader.{done, each};
ghost use Rattle.descriptor.specs.Reading.{id, unicode, class, flag, double, enumerated, raw_bytes, is_unit, is_array_unit, unit_double, sort_of, form_of, ref_value, column};
ghost use Rattle.descriptor_fields.specs.scaffold.Answer.{told_begun, end_of, begun, known, reader_of, counted};

use descriptor::{
    ALIAS, ANGLE, ARRAY, BOOL, CLASS, COMP, DENSITY, DISTANCE, DOUBLE, ENUMERATED, FORM_CLASS,
    FORM_ENUMERATED, FORM_IDENTIFIER, FORM_INDEX, FORM_NAME, FORM_OFFSET, FORM_PROPERTY,
    GLOBAL_CLASS, GLOBAL_OBJECT, LIST, LONG, MILLIMETRES, NONE, OBJECT, PATH, PERCENT, PIXELS,
    POINTS, RAW, REFERENCE, TEXT, UNIT_DOUBLE,
};
use fault::{Fault, Refusal};

/// What stands after an item's type: fields alone, with their end, or members.
#[derive(Clone, Copy, Debug, PartialEq, Eq)]
pub enum Value {
    Ends(usize),
    List,
    Object,
    Reference,
    Array,
}

/// What stands after a reference item's class.
#[derive(Clone, Copy, Debug, PartialEq, Eq)]
pub enum Form {
    Nothing,
    Enumerated,
    Id,
    Text,
    Long,
}

// The bits of infinity, and of minus zero.
const INFINITY: u64 = 0x7ff0_0000_0000_0000;

const MINUS_ZERO: u64 = 0x8000_0000_0000_0000;

/// An ID: a length, and that many bytes, or 4 where it is 0.
pub fn id_at(file: &[u8], at: usize) -> Result<usize, Refusal>
    ensures { told_end result ≡ id file.now at }
{
    let (n, body) = fields::number_at::<u32>(file, at)?;
    if n == 0 {
        return fields::run_at(file, body, 4);
    }
    fields::run_at(file, body, n as usize)
}

/// A Unicode string: a count and the units, of which only the last is looked at.
pub fn unicode_at(file: &[u8], at: usize) -> Result<usize, Refusal>
    ensures { told_end result ≡ unicode file.now at }
{
    let (n, first) = fields::number_at::<u32>(file, at)?;
    if n == 0 {
        return Ok(first);
    }
    let k = 2 * (n as usize);
    if file.len() - first < k {
        return Err(Refusal(Fault::Short, first));
    }
    if fields::number_or_zero::<u16>(file, first + k - 2) != 0 {
        return Err(Refusal(Fault::BadlyClosed, at));
    }
    Ok(first + k)
}

/// A class: a Unicode string and an ID.
pub fn class_at(file: &[u8], at: usize) -> Result<usize, Refusal>
    ensures { told_end result ≡ class file.now at }
{
    let next = unicode_at(file, at)?;
    id_at(file, next)
}

/// Two IDs.
pub fn enumerated_at(file: &[u8], at: usize) -> Result<usize, Refusal>
    ensures { told_end result ≡ enumerated file.now at }
{
    let next = id_at(file, at)?;
    id_at(file, next)
}

/// A length and that many bytes.
pub fn bytes_at(file: &[u8], at: usize) -> Result<usize, Refusal>
    ensures { told_end result ≡ raw_bytes file.now at }
{
    let (n, body) = fields::number_at::<u32>(file, at)?;
    fields::run_at(file, body, n as usize)
}

/// Whether a tag is one of the eight units.
pub fn is_unit(tag: u32) -> bool
    ensures { result ≡ is_unit tag }
{
    match tag {
        ANGLE | DENSITY | DISTANCE | NONE | PERCENT | PIXELS | MILLIMETRES | POINTS => true,
        _ => false,
    }
}

/// Whether a tag is one of the three units of object arrays.
pub fn is_array_unit(tag: u32) -> bool
    ensures { result ≡ is_array_unit tag }
{
    match tag {
        DISTANCE | PERCENT | PIXELS => true,
        _ => false,
    }
}

/// A `bool`: 0 or 1.
pub fn flag_at(file: &[u8], at: usize) -> Result<usize, Refusal>
    ensures { told_end result ≡ flag file.now at }
{
    let (v, next) = fields::number_at::<u8>(file, at)?;
    if 1 < v {
        return Err(Refusal(Fault::OutOfRange, at));
    }
    Ok(next)
}

/// Whether the double with these bits is finite.
pub fn is_finite(bits: u64) -> bool
    ensures { result ≡ finite (of_bits binary64 bits) }
{
    bits % MINUS_ZERO < INFINITY
}

/// A finite double.
pub fn double_at(file: &[u8], at: usize) -> Result<usize, Refusal>
    ensures { told_end result ≡ double file.now at }
{
    let (bits, next) = fields::number_at::<u64>(file, at)?;
    if is_finite(bits) {
        return Ok(next);
    }
    Err(Refusal(Fault::OutOfRange, at))
}

/// A unit and a double.
pub fn unit_double_at(file: &[u8], at: usize) -> Result<usize, Refusal>
    ensures { told_end result ≡ unit_double file.now at }
{
    let (unit, next) = fields::number_at::<u32>(file, at)?;
    if is_unit(unit) {
        return double_at(file, next);
    }
    Err(Refusal(Fault::Unknown, at))
}

// A field's end as the end of a value.
fn ending(end: Result<usize, Refusal>) -> Result<Option<Value>, Refusal>
    ensures { told_begun result ≡ end_of (told_end end) }
{
    let end = end?;
    Ok(Some(Value::Ends(end)))
}

/// What stands at `at`, after an item's type, where the type is known: fields alone are read to their end.
pub fn begin(file: &[u8], kind: u32, at: usize) -> Result<Option<Value>, Refusal>
    ensures { told_begun result ≡ begun (sort_of kind) file.now at }
{
    match kind {
        BOOL => ending(flag_at(file, at)),
        CLASS | GLOBAL_CLASS => ending(class_at(file, at)),
        DOUBLE => ending(double_at(file, at)),
        ENUMERATED => ending(enumerated_at(file, at)),
        ALIAS | PATH | RAW => ending(bytes_at(file, at)),
        LONG => ending(fields::run_at(file, at, 4)),
        COMP => ending(fields::run_at(file, at, 8)),
        TEXT => ending(unicode_at(file, at)),
        UNIT_DOUBLE => ending(unit_double_at(file, at)),
        LIST => Ok(Some(Value::List)),
        OBJECT | GLOBAL_OBJECT => Ok(Some(Value::Object)),
        REFERENCE => Ok(Some(Value::Reference)),
        ARRAY => Ok(Some(Value::Array)),
        _ => Ok(None),
    }
}

// ---- reference items

/// The form of a reference item with this type.
pub fn form_of(kind: u32) -> Option<Form>
    ensures { known result ≡ form_of kind }
{
    match kind {
        FORM_CLASS => Some(Form::Nothing),
        FORM_ENUMERATED => Some(Form::Enumerated),
        FORM_PROPERTY => Some(Form::Id),
        FORM_NAME => Some(Form::Text),
        FORM_IDENTIFIER | FORM_INDEX | FORM_OFFSET => Some(Form::Long),
        _ => None,
    }
}

// What stands after a reference item's class.
fn form_at(file: &[u8], form: Form, at: usize) -> Result<usize, Refusal>
    ensures { told_end result ≡ reader_of form file.now at }
{
    match form {
        Form::Nothing => fields::run_at(file, at, 0),
        Form::Enumerated => enumerated_at(file, at),
        Form::Id => id_at(file, at),
        Form::Text => unicode_at(file, at),
        Form::Long => fields::run_at(file, at, 4),
    }
}

/// What stands after a reference item's form: a class, and what the form says.
pub fn ref_value_at(file: &[u8], form: Form, at: usize) -> Result<usize, Refusal>
    ensures { told_end result ≡ ref_value (reader_of form) file.now at }
{
    let next = class_at(file, at)?;
    form_at(file, form, next)
}

// ---- object arrays

// n doubles.
fn doubles_at(file: &[u8], at: usize, n: u32) -> Result<usize, Refusal>
    ensures { told_end result ≡ done (each n 0 (λ i. double) file.now at) }
{
    let mut p = at;
    for _i in 0..n {
        p = double_at(file, p)?;
    }
    Ok(p)
}

// As many doubles as there are objects, after their count.
fn counted_at(file: &[u8], objects: u32, at: usize) -> Result<usize, Refusal>
    ensures { told_end result ≡ counted objects file.now at }
{
    let (n, next) = fields::number_at::<u32>(file, at)?;
    if n == objects {
        return doubles_at(file, next, n);
    }
    Err(Refusal(Fault::OutOfRange, at))
}

/// What stands after `UnFl`: a unit, and as many doubles as there are objects.
pub fn column_at(file: &[u8], objects: u32, at: usize) -> Result<usize, Refusal>
    ensures { told_end result ≡ column objects file.now at }
{
    let (unit, next) = fields::number_at::<u32>(file, at)?;
    if is_array_unit(unit) {
        return counted_at(file, objects, next);
    }
    Err(Refusal(Fault::Unknown, at))
}
