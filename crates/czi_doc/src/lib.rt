//! Items of a CZI document: dimensions, directory entries, attachments, and lists of bytes; and what is asked of it.
#![tactic(auto)]

mod dimensions;
mod fault;
mod items;
mod key_number;
mod keys;
mod pixel;
mod plane;
mod plane_text;
mod query;
mod reading;
mod writing;

pub use czi_format::{DATA_LIMIT, TEXT_LIMIT};
pub use dimensions::{Dim, Dims, ItemFault};
pub use fault::TextFault;
pub use items::{AttInfo, Bytes, EntryInfo};
pub use keys::{Key, equal_keys};
pub use pixel::Pixel;
pub use plane::Plane;
pub use plane_text::read_plane;
pub use query::Query;
pub use reading::{read_dims, read_integer, read_natural};
pub use writing::{write_dims, write_name};
