// Keys looked up in descriptors, for C.
ghost use Rattle.std.specs.Prelude.{◌≡◌};
ghost use Rattle.descriptor.specs.Reading.{descriptor};
ghost use Rattle.descriptor_find.specs.Find.{told, found};
ghost use Rattle.khuyurek.specs.Keys.{answer_of, found_of};

use descriptor_find::Rejection;
use fault::Refusal;

// Number 0 is accepted, with the number of keys; else the refusal, of a place of the keys where
// `in_keys` is 1.
#[repr(C)]
#[derive(Drop)]
pub struct Found {
    pub number: u32,
    pub in_keys: u32,
    pub place: usize,
    pub keys: usize,
}

fn exported_found(a: Result<usize, Rejection>) -> Found
    ensures { result ≡ answer_of (told a) }
{
    match a {
        Ok(keys) => Found {
            number: 0,
            in_keys: 0,
            place: 0,
            keys,
        },
        Err(Rejection::Refused(Refusal(fault, place))) => Found {
            number: fault.number(),
            in_keys: 0,
            place,
            keys: 0,
        },
        Err(Rejection::InKeys(Refusal(fault, place))) => Found {
            number: fault.number(),
            in_keys: 1,
            place,
            keys: 0,
        },
    }
}

// Which rows have some keys.
#[unsafe(no_mangle)]
pub extern "C" fn khuyurek_descriptor_find(
    file: &[u8],
    first: &[u32],
    length: &[u32],
    next: &[u32],
    depth: &[u32],
    kind: &[u32],
    keys: &[u8],
    answers: &mut [u32],
) -> Found
    ensures { (result, answers.new) ≡ found_of (found file.now (descriptor file.now) first.now length.now next.now depth.now kind.now keys.now answers.old) }
{
    exported_found(descriptor_find::find(file, first, length, next, depth, kind, keys, answers))
}
