//! Creating an empty document in an empty image, beside a journal.
//!
//! The image's first byte is written last, once all others are synced. So a crash leaves an image that no reader takes for a
//! document, or the whole one.
#![tactic(auto)]

mod creating;
mod image;

pub use creating::{CreationFault, begin, make};
pub use image::empty_image;
