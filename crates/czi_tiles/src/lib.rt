//! Which tiles of an image a region shows, and what of them.
#![tactic(auto)]

mod among;
mod axis;
mod belonging;
mod cell;
mod cells;
mod covering;
mod grid;
mod laws;
mod levels;
mod painted;
mod places;
mod plain;
mod turn;
mod window;

pub use covering::{Covering, covered_by};
pub use grid::TileGrid;
pub use laws::pixels_of_chosen;
pub use plain::select;
pub use window::Window;
