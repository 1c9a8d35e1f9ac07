//! The redo journal: two slots and a selector.
//!
//! | place | bytes | meaning |
//! |---|---|---|
//! | 0 | 1 | 0x5A where the journal counts |
//! | 1 | 1 | the selected slot: 1 means B, every other value A |
//! | 2 | 62 | written as 0, not looked at |
//! | 64 | 262,144 | slot A |
//! | 262,208 | 262,144 | slot B |
//!
//! A journal that is shorter than 524,352 bytes, or whose byte 0 is another, is void. One that is longer counts
//! like one of that length. Each slot begins with a record (`czi_links`).
//!
//! A record becomes the one that counts in two synced steps: `stage` writes it to the slot that isn't selected,
//! and `flip` writes the selector, which is one byte. So any crash leaves the old record or the new one.
//!
//! No call here touches the image, or what a crash leaves of it.
#![tactic(auto)]

mod arming;
mod journal;
mod probing;
mod steps;

pub use arming::create;
pub use journal::{Journal, Slot};
pub use probing::{JournalFault, probe, selected_slot};
pub use steps::{flip, seal, stage};
