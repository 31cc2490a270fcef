// The columns of descriptors for C.
ghost use Rattle.std.specs.Prelude.{◌≡◌, ◌∷◌, []};
ghost use Rattle.descriptor.specs.Reading.{descriptor};
ghost use Rattle.descriptor_judge.specs.Answer.{told};
ghost use Rattle.descriptor_columns.specs.Filled.{answered, Read, valued, parented};
ghost use Rattle.khuyurek.specs.Descriptor.{answer_of, read_of, parents_of, parented_of};

use crate::DescriptorAnswer;
use crate::descriptors::exported;
use fault::Refusal;

// Number 0 is accepted, with the number of rows; else the refusal.
#[repr(C)]
#[derive(Drop)]
pub struct Parents {
    pub number: u32,
    pub rows: usize,
}

fn exported_parents(a: Result<usize, Refusal>) -> Parents
    ensures { result ≡ parents_of (told a) }
{
    match a {
        Ok(rows) => Parents { number: 0, rows },
        Err(Refusal(fault, _)) => Parents {
            number: fault.number(),
            rows: 0,
        },
    }
}

// Reads a descriptor into five runs.
#[unsafe(no_mangle)]
pub extern "C" fn khuyurek_descriptor_read(
    file: &[u8],
    first: &mut [u32],
    length: &mut [u32],
    next: &mut [u32],
    depth: &mut [u32],
    kind: &mut [u32],
) -> DescriptorAnswer
    ensures { (result ≡ answer_of (answered (descriptor file.now) (first.old ∷ length.old ∷ next.old ∷ depth.old ∷ kind.old ∷ []))) × (Read file.now first.old length.old next.old depth.old kind.old first.new length.new next.new depth.new kind.new) }
{
    exported(descriptor_columns::read(file, first, length, next, depth, kind))
}

// Where the value of every row begins.
#[unsafe(no_mangle)]
pub extern "C" fn khuyurek_descriptor_values(file: &[u8], values: &mut [u32]) -> DescriptorAnswer
    ensures { (result, values.new) ≡ read_of (valued file.now values.old) }
{
    exported(descriptor_columns::values(file, values))
}

// The parent of every row from the depths.
#[unsafe(no_mangle)]
pub extern "C" fn khuyurek_descriptor_parents(depth: &[u32], parents: &mut [u32]) -> Parents
    ensures { (result, parents.new) ≡ parented_of (parented depth.now parents.old) }
{
    exported_parents(descriptor_columns::parents(depth, parents))
}
