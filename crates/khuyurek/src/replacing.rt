// Descriptors with one value replaced, for C.
ghost use Rattle.std.specs.Prelude.{◌≡◌, length as size};
ghost use Rattle.algebra.specs.Writing.{writes};
ghost use Rattle.descriptor.specs.Reading.{descriptor};
ghost use Rattle.descriptor_read.specs.Values.{row_in};
ghost use Rattle.descriptor_replace.specs.Replace.{fault, new_file};
ghost use Rattle.khuyurek.specs.Replaced.{value_of};
ghost use Rattle.khuyurek.specs.Written.{wrote_of};

use crate::{Length, exported_length};
use descriptor_replace::Replacement;

// A value by the four characters of its kind.
fn replacement(kind: u32, unit: u32, bits: u64) -> Replacement
    ensures { result ≡ value_of kind unit bits }
{
    if kind == descriptor::BOOL {
        return Replacement::Bool(bits);
    }
    if kind == descriptor::LONG {
        return Replacement::Long(bits);
    }
    if kind == descriptor::COMP {
        return Replacement::Comp(bits);
    }
    if kind == descriptor::DOUBLE {
        return Replacement::Double(bits);
    }
    if kind == descriptor::UNIT_DOUBLE {
        return Replacement::UnitDouble(unit, bits);
    }
    Replacement::Other
}

// Writes a descriptor with one value replaced.
#[unsafe(no_mangle)]
pub extern "C" fn khuyurek_descriptor_replace(
    file: &[u8],
    first: &[u32],
    length: &[u32],
    next: &[u32],
    depth: &[u32],
    kind: &[u32],
    row: usize,
    value_kind: u32,
    unit: u32,
    bits: u64,
    out: &mut [u8],
) -> Length
    ensures { (result, out.new) ≡ wrote_of (writes (fault (descriptor file.now) first.now length.now next.now depth.now kind.now row (value_of value_kind unit bits)) (size file.now) (new_file file.now (row_in row (descriptor file.now)) (value_of value_kind unit bits)) out.old) }
{
    let value = replacement(value_kind, unit, bits);
    exported_length(descriptor_replace::replace(
        file, first, length, next, depth, kind, row, value, out,
    ))
}
