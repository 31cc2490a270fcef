// The value of one row of a descriptor: where it lies, its bytes, and what it says by its kind.
//
// A file is judged first. Then a loop goes over its heads, without judging again, up to the row that
// is asked for, and on to that row's end.
#![tactic(auto)]

ghost use Rattle.std.specs.Prelude.{◌≡◌, ◌+◌, ◌-◌, ◌≤◌, eqb, length, true};
ghost use Rattle.std.specs.Float.{binary64};
ghost use Rattle.std.specs.Float.Ieee.{of_bits};
ghost use Rattle.std.specs.Float.Ieee.Scale.{finite};
ghost use Rattle.algebra.specs.Numbers.{num};
ghost use Rattle.algebra.specs.Reader.{field, or_zero, pick};
ghost use Rattle.descriptor.specs.scaffold.Leaves.{Leafed};
ghost use Rattle.descriptor.specs.Reading.{descriptor};
ghost use Rattle.descriptor_heads.specs.Heads.{file_heads};
ghost use Rattle.descriptor_judge.specs.Answer.{told};
ghost use Rattle.descriptor_read.specs.Values.{row_in, place_of, told_value, value_in};
ghost use Rattle.descriptor_read.specs.scaffold.Values.{extent_of, told_extent};
ghost use Rattle.descriptor_read.specs.scaffold.Extents.{Accepted, extent_in, met_by};
ghost use Rattle.descriptor_read.specs.Typed.{told_typed, typed_in, typed_of};

use descriptor::{BOOL, COMP, DOUBLE, LONG, UNIT_DOUBLE};
use descriptor_columns::Level;
use descriptor_raw::RawHead;
use fault::{Fault, Refusal};

/// Where a row's value lies: its first byte and its length.
#[derive(Clone, Copy, Debug, PartialEq, Eq)]
pub struct Span {
    pub first: usize,
    pub length: usize,
}

/// A row's value by its kind: a `bool`; the bits of a `long` and of a `comp`; a `doub`; the unit and the
/// double of an `UntF`. Rows of other kinds have none.
#[derive(Clone, Copy)]
pub enum Typed {
    Bool(bool),
    Long(u32),
    Comp(u64),
    Double(f64),
    UnitDouble(u32, f64),
    Other,
}

// A row's kind, and its value's first byte and length.
#[derive(Clone, Copy)]
struct Extent {
    kind: u32,
    first: usize,
    length: usize,
}

// The row that is asked for, once it is met: its depth, its kind, and where its value begins.
#[derive(Clone, Copy)]
struct Met {
    depth: usize,
    kind: u32,
    value: usize,
}

// A depth that no row has: the row was not met yet.
const NOWHERE: usize = 34;

// ---- one row

// After the head of the row `k` at this depth.
fn met_by(met: Met, k: usize, row: usize, depth: usize, head: RawHead) -> Met
    ensures { result ≡ met_by met (eqb k row) depth head }
{
    if k == row {
        return Met {
            depth,
            kind: head.kind,
            value: head.value,
        };
    }
    met
}

// The kind of a row of an accepted file, and where its value lies; 12 where there is no such row.
fn extent_in(file: &[u8], row: usize) -> Result<Extent, Refusal>
    requires { Accepted file.now }
    ensures { told_extent result ≡ extent_in row (file_heads file.now) }
{
    let mut saved = [Level {
        what: 0,
        objects: 0,
        left: 0,
        row: 0,
        first: 0,
    }; 33];
    let head = descriptor_raw::root_head(file);
    let mut met = met_by(
        Met {
            depth: NOWHERE,
            kind: 0,
            value: 0,
        },
        0,
        row,
        0,
        head,
    );
    let mut d: usize = 0;
    let mut what = head.what;
    let mut objects = head.objects;
    let mut left = head.count;
    let mut at = head.end;
    let mut k: usize = 1;
    loop {
        if left == 0 {
            if d == met.depth {
                return Ok(Extent {
                    kind: met.kind,
                    first: met.value,
                    length: at - met.value,
                });
            }
            if d == 0 {
                return Err(Refusal(Fault::NoRecord, 0));
            }
            d -= 1;
            let level = saved[d];
            what = level.what;
            objects = level.objects;
            left = level.left;
            continue;
        }
        left -= 1;
        let head = descriptor_raw::head_at(file, what, objects, at);
        if head.count == 0 {
            if k == row {
                return Ok(Extent {
                    kind: head.kind,
                    first: head.value,
                    length: head.end - head.value,
                });
            }
            at = head.end;
            k += 1;
            continue;
        }
        saved[d] = Level {
            what,
            objects,
            left,
            row: 0,
            first: 0,
        };
        d += 1;
        met = met_by(met, k, row, d, head);
        what = head.what;
        objects = head.objects;
        left = head.count;
        at = head.end;
        k += 1;
    }
}

// The kind of a row, and where its value lies.
fn extent_at(file: &[u8], row: usize) -> Result<Extent, Refusal>
    ensures { told_extent result ≡ extent_of (row_in row (descriptor file.now)) }
{
    let _rows = descriptor_judge::judge(file)?;
    extent_in(file, row)
}

/// Where the value of a row lies; 12 where the file has no such row.
pub fn value_at(file: &[u8], row: usize) -> Result<Span, Refusal>
    ensures { told_value result ≡ place_of (row_in row (descriptor file.now)) }
{
    let extent = extent_at(file, row)?;
    Ok(Span {
        first: extent.first,
        length: extent.length,
    })
}

/// The value of a row, as a part of the file; empty where `value_at` refuses.
pub fn value_part(file: &[u8], row: usize) -> &[u8]
    ensures { result.now ≡ value_in file.now (row_in row (descriptor file.now)) }
{
    match extent_at(file, row) {
        Err(_) => &file[..0],
        Ok(extent) => {
            let end = extent.first + extent.length;
            &file[extent.first..end]
        }
    }
}

// Whether the byte at `at` is 1.
fn is_one(file: &[u8], at: usize) -> bool
    ensures { result ≡ eqb (or_zero (field 1 file.now at)) 1 }
{
    fields::number_or_zero::<u8>(file, at) == 1
}

// The double whose bits stand at `at`.
fn double_of(file: &[u8], at: usize) -> f64
    requires { (8 ≤ length file.now - at) × (finite (of_bits binary64 (num 8 file.now at)) ≡ true) }
    ensures { result ≡ of_bits binary64 (num 8 file.now at) }
{
    let bits = fields::number_or_zero::<u64>(file, at);
    f64::from_bits(bits)
}

// The value at `value` of a row of this kind.
fn typed_of(file: &[u8], kind: u32, value: usize) -> Typed
    requires { (Leafed file.now kind value) × (value ≤ 16777216) }
    ensures { result ≡ typed_in file.now kind value }
{
    match kind {
        BOOL => Typed::Bool(is_one(file, value)),
        LONG => Typed::Long(fields::number_or_zero::<u32>(file, value)),
        COMP => Typed::Comp(fields::number_or_zero::<u64>(file, value)),
        DOUBLE => Typed::Double(double_of(file, value)),
        UNIT_DOUBLE => {
            let unit = fields::number_or_zero::<u32>(file, value);
            Typed::UnitDouble(unit, double_of(file, value + 4))
        }
        _ => Typed::Other,
    }
}

/// The value of a row by its kind; 12 where the file has no such row.
pub fn typed_at(file: &[u8], row: usize) -> Result<Typed, Refusal>
    ensures { told_typed result ≡ typed_of file.now (row_in row (descriptor file.now)) }
{
    let extent = extent_at(file, row)?;
    Ok(typed_of(file, extent.kind, extent.first))
}
