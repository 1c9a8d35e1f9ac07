//! The editor as a program: `czi_tool FILE COMMAND [name=value ...]` works on the image FILE and the journal FILE.jrn, with
//! standard input and standard output.
//!
//! This is the edge to the system. All that the program decides is in `czi_top::run`.
#![tactic(auto)]

mod disk_file;
mod file_rig;
mod input;
#[cfg(test)]
mod tests;

use file_rig::FileRig;
use input::InputSource;
use std::alloc::AllocError;
use std::env;
use std::io::ErrorKind;
use std::process::ExitCode;

/// The exit status for want of memory.
const NO_MEMORY: u8 = 8;

/// The words after the program's name. Arguments that aren't text are none, which is no command.
fn words(rt: &HostRuntime) -> Result<Vec<String>, AllocError> {
    let mut words = Vec::new(rt.alloc());
    match env::args(rt) {
        Ok(arguments) => {
            for word in arguments.skip(1) {
                words.push(word)?;
            }
        }
        Err(error) if error.kind() == ErrorKind::OutOfMemory => return Err(AllocError),
        Err(_) => {}
    }
    Ok(words)
}

/// Runs the command over the real files, input and output, and answers the exit status.
fn run(rt: &HostRuntime) -> Result<u8, AllocError> {
    let words = words(rt)?;
    let path = match words.first() {
        Some(word) => word.as_str(),
        None => "",
    };
    let journal_path = format!(in rt.alloc(); "{path}.jrn")?;
    let path = String::from_str(rt.alloc(), path)?;
    let mut rig = FileRig::new(rt.clone()?, path, journal_path);
    let mut input = InputSource::new(rt.clone()?);
    Ok(czi_top::run(rt.alloc(), &words, &mut rig, &mut input))
}

fn main(rt: HostRuntime) -> ExitCode {
    match run(&rt) {
        Ok(status) => ExitCode::from(status),
        Err(AllocError) => ExitCode::from(NO_MEMORY),
    }
}
