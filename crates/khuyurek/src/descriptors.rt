// Descriptors for C.
ghost use Rattle.std.specs.Prelude.{◌≡◌};
ghost use Rattle.std.specs.Float.{binary64};
ghost use Rattle.std.specs.Float.Ieee.{to_bits};
ghost use Rattle.descriptor.specs.Reading.{descriptor};
ghost use Rattle.descriptor_judge.specs.Answer.{verdict, told};
ghost use Rattle.descriptor_read.specs.Values.{row_in, place_of, told_value};
ghost use Rattle.descriptor_read.specs.Typed.{typed_of, told_typed};
ghost use Rattle.khuyurek.specs.Descriptor.{answer_of, value_of, flag_of, kinded, typed_answer};

use descriptor::{BOOL, COMP, DOUBLE, LONG, UNIT_DOUBLE};
use descriptor_read::{Span, Typed};
use fault::Refusal;

// Number 0 is accepted, with the number of rows; else the refusal.
#[repr(C)]
#[derive(Drop)]
pub struct DescriptorAnswer {
    pub number: u32,
    pub place: usize,
    pub rows: usize,
}

// Number 0 is accepted, with the first byte of the row's value and its length; else the refusal.
#[repr(C)]
#[derive(Drop)]
pub struct DescriptorValue {
    pub number: u32,
    pub place: usize,
    pub first: usize,
    pub size: usize,
}

pub(crate) fn exported(a: Result<usize, Refusal>) -> DescriptorAnswer
    ensures { result ≡ answer_of (told a) }
{
    match a {
        Ok(rows) => DescriptorAnswer {
            number: 0,
            place: 0,
            rows,
        },
        Err(Refusal(fault, place)) => DescriptorAnswer {
            number: fault.number(),
            place,
            rows: 0,
        },
    }
}

fn exported_value(v: Result<Span, Refusal>) -> DescriptorValue
    ensures { result ≡ value_of (told_value v) }
{
    match v {
        Ok(span) => DescriptorValue {
            number: 0,
            place: 0,
            first: span.first,
            size: span.length,
        },
        Err(Refusal(fault, place)) => DescriptorValue {
            number: fault.number(),
            place,
            first: 0,
            size: 0,
        },
    }
}

// Judges a descriptor.
#[unsafe(no_mangle)]
pub extern "C" fn khuyurek_descriptor_judge(file: &[u8]) -> DescriptorAnswer
    ensures { result ≡ answer_of (verdict (descriptor file.now)) }
{
    exported(descriptor_judge::judge(file))
}

// Where the value of a row lies.
#[unsafe(no_mangle)]
pub extern "C" fn khuyurek_descriptor_value_at(file: &[u8], row: usize) -> DescriptorValue
    ensures { result ≡ value_of (place_of (row_in row (descriptor file.now))) }
{
    exported_value(descriptor_read::value_at(file, row))
}

// ---- values by their kind

// The bits of a NaN.
const NAN: u64 = 0x7ff8_0000_0000_0000;

// Number 0 is accepted, with the row's kind, 0 where it has no such value, the unit of an `UntF` and
// the bits; else the refusal.
#[repr(C)]
#[derive(Drop)]
pub struct DescriptorTyped {
    pub number: u32,
    pub kind: u32,
    pub place: usize,
    pub unit: u32,
    pub bits: u64,
}

fn flag_of(b: bool) -> u64
    ensures { result ≡ flag_of b }
{
    if b {
        return 1;
    }
    0
}

fn bits_of(x: f64) -> u64
    ensures { result ≡ to_bits binary64 x }
{
    if x == x {
        return f64::to_bits(x);
    }
    NAN
}

fn kinded(kind: u32, unit: u32, bits: u64) -> DescriptorTyped
    ensures { result ≡ kinded kind unit bits }
{
    DescriptorTyped {
        number: 0,
        kind,
        place: 0,
        unit,
        bits,
    }
}

fn exported_typed(t: Result<Typed, Refusal>) -> DescriptorTyped
    ensures { result ≡ typed_answer (told_typed t) }
{
    match t {
        Ok(Typed::Bool(b)) => kinded(BOOL, 0, flag_of(b)),
        Ok(Typed::Long(n)) => kinded(LONG, 0, u64::from(n)),
        Ok(Typed::Comp(n)) => kinded(COMP, 0, n),
        Ok(Typed::Double(x)) => kinded(DOUBLE, 0, bits_of(x)),
        Ok(Typed::UnitDouble(unit, x)) => kinded(UNIT_DOUBLE, unit, bits_of(x)),
        Ok(Typed::Other) => kinded(0, 0, 0),
        Err(Refusal(fault, place)) => DescriptorTyped {
            number: fault.number(),
            kind: 0,
            place,
            unit: 0,
            bits: 0,
        },
    }
}

// The value of a row by its kind.
#[unsafe(no_mangle)]
pub extern "C" fn khuyurek_descriptor_typed_at(file: &[u8], row: usize) -> DescriptorTyped
    ensures { result ≡ typed_answer (typed_of file.now (row_in row (descriptor file.now))) }
{
    exported_typed(descriptor_read::typed_at(file, row))
}
