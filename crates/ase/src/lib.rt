// ASE palettes: the layout, whose definitions stand in specs/, and its numbers for the code.
#![tactic(auto)]

/// The longest file that is read, and the longest output that is written.
pub const LIMIT: usize = 16777216;
/// How many numbers a record has in a table or run.
pub const WIDTH: usize = 9;
/// The most groups that stand open.
pub const DEEPEST: usize = 16;
// Kept: matches name these numbers of files and rows; an enum would be one more table of them.
/// The type of a block that starts a group.
pub const GROUP_START: u16 = 0xC001;
/// The type of a block that ends a group.
pub const GROUP_END: u16 = 0xC002;
/// The type of a colour.
pub const COLOUR: u16 = 0x0001;
/// `ASEF`.
pub const SIGNATURE: u32 = 0x4153_4546;

// Kept: four channels and no array: each is one number of a row, and is judged and stored alone.
/// A record's numbers in the order of a row: its block's type, where its name lies, and of a colour
/// the tag of its model, the bits of its channels, and its ink.
#[derive(Clone, Copy, Debug, PartialEq, Eq)]
pub struct RowNumbers {
    pub block: u32,
    pub first: u32,
    pub units: u32,
    pub model: u32,
    pub channel0: u32,
    pub channel1: u32,
    pub channel2: u32,
    pub channel3: u32,
    pub ink: u32,
}
