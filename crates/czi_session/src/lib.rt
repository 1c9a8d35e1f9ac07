//! The course of a run of edit commands over any editor: it opens the files, reads a command of the script, does it, says
//! its whole reply, and only then reads on; at the end it seals the journal.
#![tactic(auto)]

mod commands;
mod editor;
mod pieces;
mod steps;
mod stop;
mod text;
mod top;

pub use editor::Editor;
pub use stop::{EditorStop, Ended, OpenStop, Stop};
pub use top::{edit, one};
