//! The dimensions of a subblock, as they stand in a directory entry.

ghost use Rattle.std.specs.Prelude.{◌≡◌, ℕ, ◌<◌, ◌≤◌, ◌↔◌, length, vec_len, IfOk, if◌then◌else◌};
ghost use Rattle.czi_format.specs.Partial.{is_zero};

use std::alloc::AllocError;

/// One dimension record of a subblock (DimensionEntryDV1).
#[derive(Clone, Copy, PartialEq, Eq)]
pub struct Dim {
    /// The dimension's name, padded with zero bytes.
    pub name: [u8; 4],
    /// Where the subblock starts in this dimension.
    pub start: i32,
    /// How far it reaches in the image, in pixels of the first layer for X and Y.
    pub size: i32,
    /// The start coordinate, kept as it is stored.
    pub coord: [u8; 4],
    /// How far it reaches as stored, in stored pixels for X and Y. 0 reads as `size`.
    pub stored: i32,
}

impl Dim {
    /// The size as stored, where 0 reads as the size.
    pub fn stored_size(&self) -> i32
        ensures { result ≡ (if is_zero self.now.stored then self.now.size else self.now.stored) }
    {
        if self.stored == 0 {
            self.size
        } else {
            self.stored
        }
    }
}

/// Why a list is no list of dimensions.
#[derive(Clone, Copy, PartialEq, Eq)]
pub enum ItemFault {
    /// There is no record.
    NoDims,
    /// There are this many records, which is more than 40.
    ManyDims(usize),
}

/// The dimensions of a subblock: 1 to 40 records, in the order of the entry.
#[derive(PartialEq, Eq, Drop)]
pub struct Dims {
    list: Vec<Dim>,
    pub ghost some: { 1 ≤ vec_len list },
    pub ghost few: { vec_len list ≤ 40 },
}

impl Dims {
    ghost use Rattle.czi_doc.specs.View.{records};

    /// The dimensions of a list. It is refused exactly where it has no record, or more than 40.
    pub fn new(list: Vec<Dim>) -> Result<Dims, ItemFault>
        ensures ok { IfOk result (λ d. records d ≡ list.items) }
        ensures none { (result ≡ Err ItemFault.NoDims) ↔ (length list.items ≡ 0) }
        ensures many { (n : ℕ) → (result ≡ Err (ItemFault.ManyDims n)) ↔ ((n ≡ length list.items) × (40 < n)) }
    {
        if list.is_empty() {
            return Err(ItemFault::NoDims);
        }
        if list.len() > 40 {
            return Err(ItemFault::ManyDims(list.len()));
        }
        Ok(Dims { list })
    }

    /// The same dimensions once more, or want of memory.
    pub fn try_copy(&self) -> Result<Dims, AllocError>
        ensures { IfOk result (λ d. records d ≡ records self.now) }
    {
        let list = self.list.clone()?;
        Ok(Dims { list })
    }

    /// The records.
    pub fn list(&self) -> &[Dim]
        ensures list { result.now ≡ records self.now }
        ensures some { 1 ≤ length result.now }
        ensures few { length result.now ≤ 40 }
    {
        self.list.as_slice()
    }
}
