//! Entries of attachments (AttachmentEntryA1 of the ZISRAW format), the data of new attachments, and the text of
//! GUIDs.
//!
//! A GUID is 16 bytes in the order in which the format stores them: the first field, of four bytes, and
//! the second and third, of two bytes each, are little-endian.
#![tactic(auto)]

mod entry;
mod guid;
mod staging;

pub use entry::{read_a1, write_a1};
pub use guid::{read_guid, write_guid};
pub use staging::{att_size, stage_att};
