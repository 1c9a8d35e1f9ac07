//! The engine as an editor of a session: the machine over the files, its commands, and what each replies.
#![tactic(auto)]

mod editor;
mod laws;
mod painting;
mod refusal;
mod reply;
#[cfg(test)]
mod tests;

pub use editor::ImageEditor;
pub use laws::each_pair_begins_or_is_refused;
