//! How a run ends.

ghost use Rattle.std.specs.Prelude.{◌≡◌};
ghost use Rattle.czi_session.specs.Stops.{stop_of};

use czi_script::Kind;

/// Why an editor can't go on with a command.
#[derive(Clone, Copy, PartialEq, Eq)]
pub enum EditorStop {
    /// A call on the image failed, and its count of faults alone rose.
    Image,
    /// A call on the journal failed, and its count of faults alone rose.
    Journal,
    /// Memory is wanting.
    Memory,
}

/// Why an editor doesn't open.
#[derive(PartialEq, Eq, Drop)]
pub enum OpenStop {
    /// The image and the journal are refused, with this text.
    Refused(Vec<u8>),
    /// The editor can't go on.
    Stopped(EditorStop),
}

/// Why a run ends before its script does.
#[derive(Clone, Copy, PartialEq, Eq)]
pub enum Stop {
    /// The input isn't a script. It was said which command is none, and why.
    Script(u64, Kind),
    /// A call on the image failed, and its count of faults alone rose.
    Image,
    /// A call on the journal failed, and its count of faults alone rose.
    Journal,
    /// A call on the output failed, and its count of faults alone rose.
    Output,
    /// A call on the input failed, and its count of faults alone rose.
    Input,
    /// Memory is wanting.
    Memory,
    /// 2^40 bytes of the input were taken, and it goes on.
    TooLong,
}

/// How a run ends.
#[derive(Clone, Copy, PartialEq, Eq)]
pub enum Ended {
    /// Each command was done and its reply said, and the journal is sealed.
    Done,
    /// The image and the journal were refused, and the refusal was said.
    Refused,
    /// It stopped.
    Stopped(Stop),
}

/// The same of a run.
pub(crate) fn stop_of(stop: EditorStop) -> Stop
    ensures { result ≡ stop_of stop }
{
    match stop {
        EditorStop::Image => Stop::Image,
        EditorStop::Journal => Stop::Journal,
        EditorStop::Memory => Stop::Memory,
    }
}
