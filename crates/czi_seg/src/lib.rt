//! Segment headers and the file header of the ZISRAW format: reading and writing.
//!
//! A segment is 32 bytes of header, an id of 16 bytes and two signed sizes, and its data behind them.
#![tactic(auto)]

mod file_header;
mod header;
mod id;

pub use file_header::{FileHeader, HeaderFault, read_file_header, write_file_header};
pub use header::{SegHeader, read_header, write_header};
pub use id::SegId;
