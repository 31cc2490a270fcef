// Colours: the spaces of ACO files with their samples, the models of ASE files with their
// channels, and inks.
#![tactic(auto)]

mod channel;
mod ink;
mod model;
mod space;

pub use channel::{Channels, bits_of, is_channel};
pub use ink::Ink;
pub use model::{Model, Traits};
pub use space::{
    CMYK, Colour, GRAY, HSB, LAB, RGB, full_sample, is_allowed, is_known, is_sound, samples_used,
};
