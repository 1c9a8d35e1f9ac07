//! A memory region: one block of bytes with a moving end, in which pieces are put one behind another.
#![tactic(auto)]

mod block;
mod laws;

pub use block::{Piece, Region};
pub use laws::{whole_piece, written_piece};
