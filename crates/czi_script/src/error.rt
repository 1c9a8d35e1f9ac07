//! Why a reader of scripts stops.

use crate::kind::Kind;

/// Why no further command is read.
#[derive(Clone, Copy, PartialEq, Eq)]
pub enum ScriptError {
    /// The bytes spell no command.
    Fault {
        /// The number of the command that isn't one, counted from 1.
        number: u64,
        /// Why it is none.
        kind: Kind,
    },
    /// The input failed, and its count of faults rose.
    Input,
    /// 2^40 bytes of the input were taken, they did not suffice, and it goes on.
    TooLong,
    /// Memory is wanting.
    Memory,
}
