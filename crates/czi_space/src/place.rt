//! Where a need goes.

/// Where a need goes, in bytes.
#[derive(Clone, Copy, PartialEq, Eq)]
pub enum Place {
    /// To this place.
    At(u64),
    /// Nowhere: past the length it would end above 2^40.
    Full {
        /// The need.
        need: u64,
        /// The length at which a place was looked for.
        length: u64,
    },
}
