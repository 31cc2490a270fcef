// A run of samples of one space to the bits of their channels, and a run of one model's channels
// back: the single conversions in order. All elements are judged before any is stored.
#![tactic(auto)]

mod back;
mod each;
mod there;

pub use back::to_samples;
pub use there::to_channels;
