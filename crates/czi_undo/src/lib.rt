//! The undo list: inverses of the last commands, newest first, and the former documents that they give over an
//! image.
#![tactic(auto)]

mod held;
mod holding;
mod inverse;
mod laws;
mod list;

pub use held::HeldSegment;
pub use inverse::{Inverse, Part};
pub use laws::{bounds, changes_undone, formers_found, singles_hold, singles_told, steps_lie};
pub use list::UndoList;
