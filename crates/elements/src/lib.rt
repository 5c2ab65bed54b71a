// The orbit record's floats: read off the bytes, held to their ranges, and turned into whole numbers.
#![tactic(auto)]

mod closest;
mod fields;
pub mod reading;
pub mod rounding;
