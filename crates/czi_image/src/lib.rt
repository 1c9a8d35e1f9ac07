//! What a CZI image holds: all that the pointers of its file header reach, read over a rig.
#![tactic(auto)]

mod applying;
mod attachments;
mod change;
mod directory;
mod entries;
mod fault;
mod found;
mod header;
mod index;
mod items;
mod laws;
mod marking;
mod metadata;
mod opening;
mod reading;
mod segment;
mod summary;
mod tiles;
mod types;

pub use change::{Act, Change, DirectoryChange, Setting};
pub use czi_walk::{WalkFault, walk};
pub use fault::ImageFault;
pub use index::Index;
pub use laws::{change_applied, room_lasts};
pub use opening::read_index;
pub use types::{AttItem, DirItem, MetaItem, Tile};
