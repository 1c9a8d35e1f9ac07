//! The map of free space: the DELETED extents of an image, the spans that are held back, and first fit.
#![tactic(auto)]

mod fitting;
mod lists;
mod map;
mod place;

pub use map::Map;
pub use place::Place;
