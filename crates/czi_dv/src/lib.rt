//! Directory entries of subblocks (DirectoryEntryDV1 of the ZISRAW format): reading and writing.
#![tactic(auto)]

mod entry;
mod reading;
mod writing;

pub use entry::{Entry, EntryFault};
pub use reading::read_entry;
pub use writing::{entry_len, write_directory_head, write_entry};
