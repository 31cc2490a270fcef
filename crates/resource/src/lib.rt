// Image resource blocks: the layout, whose definitions stand in specs/, and its numbers for the code.
#![tactic(auto)]

/// The longest section that is read, and the longest output that is written.
pub const LIMIT: usize = 16777216;
/// How many numbers a record has in a table or run.
pub const WIDTH: usize = 5;
/// `8BIM`.
pub const SIGNATURE: u32 = 0x3842_494D;

/// A record: a block's ID, and where its name and its data lie, each by the place of its first byte
/// and the number of its bytes.
#[derive(Clone, Copy, Debug, PartialEq, Eq)]
pub struct Record {
    pub id: u32,
    pub name: usize,
    pub letters: usize,
    pub payload: usize,
    pub size: usize,
}
