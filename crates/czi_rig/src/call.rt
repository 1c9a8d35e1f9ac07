use crate::File;

/// What a call of a rig was: a read or a write with its place and its number of bytes, a cut with the length that was
/// asked for.
#[derive(Clone, Copy, PartialEq, Eq)]
pub enum Call {
    Len(File),
    Read(File, u64, u64),
    Write(File, u64, u64),
    Cut(File, u64),
    Sync(File),
    Say,
}

/// One of the contents that a crash may leave of a file: the one that was synced last, the one that a read gives at the
/// end of the call, or the synced one with this byte at each place that isn't determined, in the greatest length where
/// the flag is set and in the least length otherwise.
#[derive(Clone, Copy, PartialEq, Eq)]
pub enum Pick {
    Old,
    New,
    Fill(u8, bool),
}
