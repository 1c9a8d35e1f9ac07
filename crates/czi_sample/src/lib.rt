//! Images and journals for tests, made of segments and of links over the project's own writers.
//!
//! An image is a file header and segments one behind another, each a row of a table:
//!
//! ```text
//! let image = image_of(alloc, &[Segment::Deleted(128), Segment::Tile(b"C0,X0:4,Y0:2", b"ABCDEFGH"), Segment::Directory(96)])?;
//! ```
//!
//! What is wrong in a file is a change of its bytes at a named place (`places`). Nothing is claimed of the bytes: each kind of
//! segment is compared with bytes in digits by a test of `czi_test_leaves`. What doesn't fit is answered as want of memory is.
#![tactic(auto)]

mod changes;
mod images;
mod journals;
pub mod places;
mod sample;
mod segment;

pub use changes::{Part, changed, put};
pub use images::{
    ATTACHED, EMPTY, ONE_TILE, ONE_TILE_WITH_ROOM, PIXELS, TILE, image_of, many_tiles,
};
pub use journals::{Link, journal_of};
pub use sample::{GUID, Sample};
pub use segment::{Segment, Subblock};
