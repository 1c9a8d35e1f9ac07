//! The links of a commit, and the record of them that a slot of the redo journal holds.
//!
//! A record is what a slot begins with: its version, the image's GUID, the image's length once the
//! record is committed, and the links, each a place of the image with the bytes to stand there. All
//! numbers are little-endian.
//!
//! | place | bytes | field |
//! |---|---|---|
//! | 0 | 4 | version, 1 |
//! | 4 | 16 | GUID of the image's file header |
//! | 20 | 8 | committed length, from 112 to 2^62 bytes |
//! | 28 | 4 | number of links |
//! | 32 | | the links: place (8 bytes), number of bytes (4 bytes), bytes |
//!
//! Each link has a byte at least, begins at place 84 or later and at or past the end of the link before,
//! and ends at or below the committed length. What follows the last link in the slot isn't looked at.
#![tactic(auto)]

mod decoding;
mod head;
mod numbers;
mod write_set;

pub use decoding::decode;
pub use head::{LinkFault, SlotHead};
pub use numbers::{FIRST_PLACE, LEAST_LENGTH, SLOT_LEN};
pub use write_set::Links;
