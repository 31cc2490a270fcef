// The index of a book by its names, and search in it, for C.
ghost use Rattle.std.specs.Prelude.{◌≡◌};
ghost use Rattle.acb.specs.Reading.{acb};
ghost use Rattle.acb_order.specs.Index.{indexed};
ghost use Rattle.acb_order.specs.Search.{searched};
ghost use Rattle.khuyurek.specs.Names.{indexed_of, found_of};

use fault::Refusal;

// Number 0 is built, with the number of entries; else the refusal.
#[repr(C)]
#[derive(Drop)]
pub struct AcbIndexed {
    pub number: u32,
    pub place: usize,
    pub shown: usize,
}

// Number 0 is found, with the record's number; else the refusal.
#[repr(C)]
#[derive(Drop)]
pub struct AcbFound {
    pub number: u32,
    pub place: usize,
    pub record: usize,
}

// The numbers of a book's shown records by their names, in a lent run.
#[unsafe(no_mangle)]
pub extern "C" fn khuyurek_acb_index(file: &[u8], index: &mut [u32]) -> AcbIndexed
    ensures { (result, index.new) ≡ indexed_of (indexed (acb file.now) index.old) }
{
    match acb_index::build(file, index) {
        Ok(shown) => AcbIndexed {
            number: 0,
            place: 0,
            shown,
        },
        Err(Refusal(fault, place)) => AcbIndexed {
            number: fault.number(),
            place,
            shown: 0,
        },
    }
}

// The lowest shown record of a name, by the book's index.
#[unsafe(no_mangle)]
pub extern "C" fn khuyurek_acb_find(file: &[u8], index: &[u32], name: &[u16]) -> AcbFound
    ensures { result ≡ found_of (searched index.now name.now (acb file.now)) }
{
    match acb_find::find(file, index, name) {
        Ok(record) => AcbFound {
            number: 0,
            place: 0,
            record,
        },
        Err(Refusal(fault, place)) => AcbFound {
            number: fault.number(),
            place,
            record: 0,
        },
    }
}
