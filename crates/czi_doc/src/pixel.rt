//! The pixel types that can be painted.

ghost use Rattle.std.specs.Prelude.{◌≡◌, ◌≤◌, find, option_map};
ghost use Rattle.std.specs.Ordering.{int_eq};
ghost use Rattle.czi_format.specs.Painting.{pixel_types};
ghost use Rattle.czi_doc.specs.QueryView.{type_of};

/// A pixel type that can be painted.
#[derive(Clone, Copy, PartialEq, Eq)]
pub enum Pixel {
    /// One sample of 8 bits.
    Gray8,
    /// One sample of 16 bits.
    Gray16,
    /// Blue, green and red, of 8 bits each.
    Bgr24,
    /// Blue, green and red, of 16 bits each.
    Bgr48,
}

impl Pixel {
    /// The type with this code in a directory entry (PixelType). None where it has no pixels that can be painted.
    pub fn of_code(code: i32) -> Option<Pixel>
        ensures { option_map type_of result ≡ find (λ t. int_eq t.code code) pixel_types }
    {
        match code {
            0 => Some(Pixel::Gray8),
            1 => Some(Pixel::Gray16),
            3 => Some(Pixel::Bgr24),
            4 => Some(Pixel::Bgr48),
            _ => None,
        }
    }

    /// Its code in a directory entry.
    pub fn code(&self) -> i32
        ensures { result ≡ (type_of self.now).code }
    {
        match self {
            Pixel::Gray8 => 0,
            Pixel::Gray16 => 1,
            Pixel::Bgr24 => 3,
            Pixel::Bgr48 => 4,
        }
    }

    /// How many bytes a pixel has.
    pub fn bytes(&self) -> u64
        ensures size { result ≡ (type_of self.now).size }
        ensures some { 1 ≤ result }
        ensures few { result ≤ 6 }
    {
        match self {
            Pixel::Gray8 => 1,
            Pixel::Gray16 => 2,
            Pixel::Bgr24 => 3,
            Pixel::Bgr48 => 6,
        }
    }
}
