// ACO swatches that arrive in chunks: the stages of a file.
#![tactic(auto)]

/// Which item comes next, and what is known of those before it.
#[derive(Clone, Copy, Debug, PartialEq, Eq)]
pub enum Stage {
    /// List 1's version and count.
    First,
    /// A colour of list 1: how many there are, and its number.
    Colour(u16, u16),
    /// The file's end, or list 2's version and count: how many colours list 1 has.
    Second(u16),
    /// A record of list 2, its colour and its name's count of units: how many there are, and its number.
    Entry(u16, u16),
    /// A unit of a record's name: how many records there are, the record's number, the place of the
    /// name's count, how many units are still to come, and whether one before them was zero.
    Unit(u16, u16, u32, u32, bool),
    /// The file's end: how many colours there are.
    End(u16),
    // Kept: a C caller may alter a stream, and the promise of `feed` and `finish` is an equation for
    // each stream, so that any number, with any record and field, is kept as it is.
    /// The first fault: its number and place, and for 7 the record and field.
    Fault(u32, usize, u16, u16),
}
