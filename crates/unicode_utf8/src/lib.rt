// Text in 16-bit units as UTF-8 in lent bytes: a surrogate without its partner is written as U+FFFD,
// so that what is written is always well-formed. It knows no format: a name is units at a place.
#![tactic(auto)]

mod name;
mod scalar;
mod units;

pub use name::{name_utf8, name_utf8_length};
pub use units::{utf8, utf8_length};

// The longest file that is taken, in bytes.
pub(crate) const LIMIT: usize = 16_777_216;
