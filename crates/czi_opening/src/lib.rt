//! Opening an image beside its journal, with recovery, and closing it.
//!
//! The two files stand for bytes: those of the image where the journal is void; where it counts, the image cut to
//! the committed length with the links of the selected slot written over it. Opening makes the image these bytes,
//! so that a crash at any moment leaves files that stand for the same, and reads what they show.
#![tactic(auto)]

mod closing;
mod error;
mod laws;
mod opening;
mod steps;

pub use closing::close;
pub use error::{ImageRefusal, OpenError};
pub use laws::{indexed_opens, one_opening, opened_or_refused};
pub use opening::{Opened, open};
