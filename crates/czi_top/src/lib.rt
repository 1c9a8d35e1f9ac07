//! The program: what the words of the command line ask for, done over a rig and an input.
#![tactic(auto)]

mod arguments;
mod creating;
mod laws;
mod top;
mod words;

pub use laws::one_command;
pub use top::run;
