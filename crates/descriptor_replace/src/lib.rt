// A descriptor with one value replaced.
//
// The table is compared with the file first. The value of a row of one of the five kinds ends where the
// row ends, so that its place comes from the table: the file is copied, and the new value stored over
// the old.
#![tactic(auto)]

ghost use Rattle.std.specs.Prelude.{◌≡◌, ◌+◌, ◌≤◌, ◌<◌, length};
ghost use Rattle.std.proofs.lemmas.List.Edits.{sets};
ghost use Rattle.algebra.specs.Numbers.{be};
ghost use Rattle.algebra.specs.Writing.{writes};
ghost use Rattle.std.specs.Result.{MatchResult};
ghost use Rattle.fault.specs.Fault.{number_of};
ghost use Rattle.fault.specs.Answer.{told_written};
ghost use Rattle.descriptor.specs.Reading.{descriptor};
ghost use Rattle.descriptor_read.specs.Values.{row_in};
ghost use Rattle.descriptor_replace.specs.Replace.{is_kind, fault_of, bytes_of, row_fault, fault, new_file};
ghost use Rattle.descriptor_replace.specs.scaffold.Replacing.{Owned};

use fault::{Fault, Refusal};

/// A value of a kind: of `bool`, `long`, `comp` and `doub` its bits, of `UntF` a unit and the bits of a
/// double; or one of no kind that can be replaced. `bool` and `long` are as given, and judged in their
/// turn.
#[derive(Clone, Copy, Debug, PartialEq, Eq)]
pub enum Replacement {
    Bool(u64),
    Long(u64),
    Comp(u64),
    Double(u64),
    UnitDouble(u32, u64),
    Other,
}

// Whether a row of this kind takes the value.
fn is_kind(kind: u32, value: Replacement) -> bool
    ensures { result ≡ is_kind kind value }
{
    match value {
        Replacement::Bool(_) => kind == descriptor::BOOL,
        Replacement::Long(_) => kind == descriptor::LONG,
        Replacement::Comp(_) => kind == descriptor::COMP,
        Replacement::Double(_) => kind == descriptor::DOUBLE,
        Replacement::UnitDouble(_, _) => kind == descriptor::UNIT_DOUBLE,
        Replacement::Other => false,
    }
}

// Whether the reader would take it, or what it would refuse it for.
fn judge(value: Replacement) -> Result<(), Fault>
    ensures { MatchResult result (λ _. fault_of value ≡ 0) (λ f. number_of f ≡ fault_of value) }
{
    match value {
        Replacement::Bool(b) => {
            if b <= 1 {
                return Ok(());
            }
            Err(Fault::OutOfRange)
        }
        Replacement::Long(n) => {
            if n <= 4294967295 {
                return Ok(());
            }
            Err(Fault::OutOfRange)
        }
        Replacement::Comp(_) => Ok(()),
        Replacement::Double(n) => {
            if descriptor_fields::is_finite(n) {
                return Ok(());
            }
            Err(Fault::OutOfRange)
        }
        Replacement::UnitDouble(unit, n) => {
            if descriptor_fields::is_unit(unit) {
                if descriptor_fields::is_finite(n) {
                    return Ok(());
                }
                return Err(Fault::OutOfRange);
            }
            Err(Fault::Unknown)
        }
        Replacement::Other => Ok(()),
    }
}

// How many bytes it has.
fn size_of(value: Replacement) -> usize
    ensures { (result ≡ length (bytes_of value)) × (result ≤ 12) }
{
    match value {
        Replacement::Bool(_) => 1,
        Replacement::Long(_) => 4,
        Replacement::Comp(_) => 8,
        Replacement::Double(_) => 8,
        Replacement::UnitDouble(_, _) => 12,
        Replacement::Other => 0,
    }
}

// ---- stores

fn put_u64(out: &mut [u8], at: usize, v: u64)
    requires { at + 8 ≤ length out.old }
    ensures { out.new ≡ sets out.old at (be 8 v) }
{
    fields::put_number(out, at, (v / 256 / 256 / 256 / 256) as u32);
    fields::put_number(out, at + 4, (v % 4294967296) as u32);
}

// The bytes of a value that is sound.
fn put_value(out: &mut [u8], at: usize, value: Replacement)
    requires { (at + length (bytes_of value) ≤ length out.old) × (fault_of value ≡ 0) }
    ensures { out.new ≡ sets out.old at (bytes_of value) }
{
    match value {
        Replacement::Bool(b) => {
            out[at] = b as u8;
        }
        Replacement::Long(n) => {
            fields::put_number(out, at, n as u32);
        }
        Replacement::Comp(n) => {
            put_u64(out, at, n);
        }
        Replacement::Double(n) => {
            put_u64(out, at, n);
        }
        Replacement::UnitDouble(unit, n) => {
            fields::put_number(out, at, unit);
            put_u64(out, at + 4, n);
        }
        Replacement::Other => {}
    }
}

// ---- the call

// The row of a file whose table these runs are.
fn replace_row(
    file: &[u8],
    first: &[u32],
    size: &[u32],
    kind: &[u32],
    rows: usize,
    row: usize,
    value: Replacement,
    out: &mut [u8],
) -> Result<usize, Fault>
    requires { Owned file.now first.now size.now kind.now rows }
    ensures { (told_written result, out.new) ≡ writes (row_fault (row_in row (descriptor file.now)) value) (length file.now) (new_file file.now (row_in row (descriptor file.now)) value) out.old }
{
    if rows <= row {
        return Err(Fault::NoRecord);
    }
    if !is_kind(kind[row], value) {
        return Err(Fault::NoCounterpart);
    }
    judge(value)?;
    let n = file.len();
    if out.len() < n {
        return Err(Fault::NoRoom);
    }
    let at = first[row] as usize + size[row] as usize - size_of(value);
    fields::put_run(out, 0, file);
    put_value(out, at, value);
    Ok(n)
}

/// Writes a file with the value of one row replaced, all other bytes as they are. Refused are the file
/// by its own, then a table that does not begin with its rows by 5, no such row by 12, a row of another
/// kind by 14, a value as the reader would by 4 or 5, and last too little room by 11; a refusal changes
/// nothing. Past the file the buffer keeps its contents.
pub fn replace(
    file: &[u8],
    first: &[u32],
    size: &[u32],
    next: &[u32],
    depth: &[u32],
    kind: &[u32],
    row: usize,
    value: Replacement,
    out: &mut [u8],
) -> Result<usize, Fault>
    ensures { (told_written result, out.new) ≡ writes (fault (descriptor file.now) first.now size.now next.now depth.now kind.now row value) (length file.now) (new_file file.now (row_in row (descriptor file.now)) value) out.old }
{
    match descriptor_check::check(file, first, size, next, depth, kind) {
        Ok(Some(rows)) => replace_row(file, first, size, kind, rows, row, value, out),
        Ok(None) => Err(Fault::OutOfRange),
        Err(Refusal(fault, _)) => Err(fault),
    }
}
