// ACO swatches: the layout, whose definitions stand in specs/, and its numbers for the code.
#![tactic(auto)]

/// The longest file that is read.
pub const LIMIT: usize = 16777216;
/// The most colours that a list has.
pub const MOST: u16 = 4096;
/// The numbers of a record in a table or run: space, four samples, place of the name's first unit,
/// number of its units, ink.
pub const WIDTH: usize = 8;
