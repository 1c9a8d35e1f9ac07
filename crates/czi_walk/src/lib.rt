//! The walk over the segments that stand one behind another in an image of the ZISRAW format, and what it shows beside the live
//! ones: the DELETED extents and the unknown segments.
//!
//! The walk costs one read of 32 bytes a segment, and none for a segment whose header was read before. With n segments the
//! marks take n log n steps.
#![tactic(auto)]

mod fault;
mod marks;
mod name;
mod segment;
mod surveying;
mod walking;

pub use fault::WalkFault;
pub use marks::{count_unknown, deleted_extents, is_walked, walk_end};
pub use surveying::{Survey, spans_of, walk_and_mark};
pub use walking::{walk, walk_known};
