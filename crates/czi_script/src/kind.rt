//! Why a script breaks off.

/// Why the bytes of a script begin with no command: the first of these that applies, in the order in which the
/// bytes are read. A line is read whole before its word is looked at.
#[derive(Clone, Copy, PartialEq, Eq)]
pub enum Kind {
    /// The input ends within a line that has at most 4,095 bytes so far, or within a payload.
    Cut,
    /// The first 4,096 bytes of a line hold no line feed.
    Long,
    /// The bytes up to the first space, or the whole line, are no command word.
    Word,
    /// The command word is one that isn't built yet.
    Later,
    /// A field is missing, is out of order, is unknown, or bytes are left over.
    Field,
    /// The fields are right, and a value isn't of its form.
    Value,
    /// The byte after a payload isn't a line feed.
    Tail,
}
