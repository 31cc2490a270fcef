// Descriptors to be built: an entry as a row of numbers, whose definitions stand in specs/, and which
// of them the head of each kind has, in the order of the file.
//
// A number stands for itself; a length or count at a place of the entry is followed by the place of
// its bytes in the lent text.
#![tactic(auto)]

/// How many numbers an entry has.
pub const WIDTH: usize = 16;

/// A field of a head, by the number of the entry that it takes: a word as it is, a unit, one of object
/// arrays, a `bool`, 64 bits, a double, an ID, a Unicode string, a run of bytes, doubles.
#[derive(Clone, Copy, Debug, PartialEq, Eq)]
pub enum Field {
    Nothing,
    Word(usize),
    Measure,
    ArrayMeasure,
    Flag,
    Wide,
    Double,
    Id(usize),
    Text(usize),
    Run(usize),
    Doubles(usize),
}

/// The fields behind a kind, in their order; whether the kind is known; and what its row's children are,
/// if it has any: 0 items, 1 pairs, 2 reference items, 3 the pairs of an object array.
#[derive(Clone, Copy, Debug, PartialEq, Eq)]
pub struct Shape {
    // Kept: no plainer. A kind that is not known has no field and no children, so that nothing but the
    // fault asks for it; as an `Option` each pass over a head would take the shape apart first.
    pub known: bool,
    pub first: Field,
    pub second: Field,
    pub third: Field,
    pub fourth: Field,
    // Kept: numbers, as `descriptor_raw` and `descriptor_columns` have them for heads and levels.
    pub below: Option<u32>,
}
