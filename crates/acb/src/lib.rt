// ACB colour books: the layout, whose definitions stand in specs/, and its numbers for the code.
#![tactic(auto)]

/// The longest file that is read, and the longest output that is written.
pub const LIMIT: usize = 16777216;
/// How many numbers a record has in a table or run.
pub const WIDTH: usize = 13;
/// `8BCB`.
pub const SIGNATURE: u32 = 0x3842_4342;
/// `spflspot`, and below it `spflproc`, as a file ends with them.
pub const SPOT: u64 = 0x7370_666C_7370_6F74;

pub const PROCESS: u64 = 0x7370_666C_7072_6F63;
