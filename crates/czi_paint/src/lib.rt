//! Paints regions of an image, row by row, by spans of the rows of its tiles.
#![tactic(auto)]

mod active;
mod fault;
mod laws;
mod length;
mod painter;
mod patch;
mod patches;
mod patching;
mod rows;
mod sweep;

pub use fault::PaintError;
pub use laws::document_painted;
pub use painter::Painter;
