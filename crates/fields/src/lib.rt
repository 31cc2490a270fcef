// Numbers and runs of bytes at a place of a file, and numbers, runs and names stored in lent bytes.
//
// Each reader takes any place, and answers with the next place or that the file ends too early.
// Each store leaves the bytes alone where they have no room.
#![tactic(auto)]

mod number;
mod store;

pub use number::{Number, number_at, number_is, number_or_zero, run_at, u16_is};
pub use store::{Stored, put_name, put_number, put_run};
