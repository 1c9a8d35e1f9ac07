//! Edit scripts, read command by command from an input.
#![tactic(auto)]

mod attachments;
mod bytes_text;
mod command;
mod error;
mod fields;
mod filling;
mod head;
mod kind;
mod laws;
mod lines;
mod payload;
mod reader;
mod regions;
mod window;

pub use command::Command;
pub use error::ScriptError;
pub use kind::Kind;
pub use laws::{
    faults_show, faults_stay, no_spelling_begins_another, one_answer, one_kind, one_reading,
    one_region, reading_goes_on,
};
pub use reader::ScriptReader;
pub use regions::read_region;
