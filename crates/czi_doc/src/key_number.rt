//! A number of a key, to search by.

ghost use Rattle.std.specs.Prelude.{◌≡◌, ◌%◌, ◌^◌};
ghost use Rattle.czi_format.specs.Key.{axis, key};
ghost use Rattle.czi_doc.specs.KeyNumber.{axis_number, key_number};
ghost use Rattle.czi_doc.specs.View.{dim_of, dims_of};

use crate::dimensions::{Dim, Dims};

/// By what a name is multiplied.
const NAME_FACTOR: u32 = 0x9E37_79B1;

/// By what a start is multiplied.
const START_FACTOR: u32 = 0x85EB_CA77;

/// The number of a dimension's name and start.
fn axis_number(dim: &Dim) -> u32
    ensures { result ≡ axis_number (axis (dim_of dim.now)) % 2 ^ 32 }
{
    let name = u32::from_le_bytes(dim.name).wrapping_mul(NAME_FACTOR);
    let start = dim.start.cast_unsigned().wrapping_mul(START_FACTOR);
    let mixed = name.wrapping_add(start);
    mixed.wrapping_mul(mixed.wrapping_mul(2).wrapping_add(1))
}

impl Dims {
    /// The number of the key. Dimensions of one key have one number, in whatever order the records stand, and those of
    /// other keys seldom have the same.
    pub fn key_number(&self) -> u32
        ensures { result ≡ key_number (key (dims_of self.now)) }
    {
        let list = self.list();
        let mut number: u32 = 0;
        for dim in list {
            number = number.wrapping_add(axis_number(dim));
        }
        number
    }
}
