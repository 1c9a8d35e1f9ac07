//! What the line of a command says.

ghost use Rattle.std.specs.Prelude.{◌≡◌};
ghost use Rattle.czi_script.specs.Script.{plain_command};
ghost use Rattle.czi_script.specs.View.{command_of, plain_of};

use crate::command::Command;
use crate::payload::Payload;
use czi_doc::{Bytes, Dims, Query};

/// A command that its line says whole.
#[derive(PartialEq, Eq, Drop)]
pub(crate) enum Plain {
    /// The subblock with these dimensions is to go.
    Remove(Dims),
    /// The attachment with this name is to go.
    Detach(Bytes),
    /// The last edit is to be undone.
    Undo,
    /// This region is to be painted.
    Region(Query),
    /// The subblocks are to be listed.
    List,
    /// Numbers of the document are to be told.
    Info,
    /// The free space is to be told.
    Map,
    /// The segments are to be counted.
    Check,
}

/// What a line says.
#[derive(PartialEq, Eq, Drop)]
pub(crate) enum Head {
    /// A whole command.
    Alone(Plain),
    /// A command whose payload follows.
    Brings(Payload),
}

impl Plain {
    /// The command.
    pub(crate) fn command(self) -> Command
        ensures { command_of result ≡ plain_command (plain_of self) }
    {
        match self {
            Plain::Remove(dims) => Command::Remove { dims },
            Plain::Detach(name) => Command::Detach { name },
            Plain::Undo => Command::Undo,
            Plain::Region(query) => Command::Region { query },
            Plain::List => Command::List,
            Plain::Info => Command::Info,
            Plain::Map => Command::Map,
            Plain::Check => Command::Check,
        }
    }
}
