//! Why a text isn't a dimension text.

/// Why dimension text can't be read.
#[derive(Clone, Copy, PartialEq, Eq)]
pub enum TextFault {
    /// The place of the first byte that can't continue a dimension text, or the text's length where it ends
    /// too early. A number that is out of range is named by its first byte.
    Bad(usize),
    /// Memory ran out.
    Memory,
}
