//! The numbers of a record, in bytes.

/// How long a slot of the journal is, which holds a record.
pub const SLOT_LEN: usize = 262_144;

/// The first place of the image at which a link may begin, behind the GUIDs of the file header.
pub const FIRST_PLACE: u64 = 84;

/// The least committed length: that of a file header whose data has the bytes that are read.
pub const LEAST_LENGTH: u64 = 112;
