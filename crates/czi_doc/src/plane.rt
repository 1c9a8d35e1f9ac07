//! Planes of an image.

ghost use Rattle.std.specs.Prelude.{◌≡◌, IsTrue, map};
ghost use Rattle.czi_format.specs.Painting.{has_name, is_apart, is_plane};
ghost use Rattle.czi_doc.specs.Items.{item_of};

use std::alloc::AllocError;

/// A plane of an image: in which dimensions a tile starts where. Their names are distinct, and none is `X`, `Y`, `M` or `S`.
/// There may be none.
#[derive(PartialEq, Eq, Drop)]
pub struct Plane {
    list: Vec<([u8; 4], i32)>,
    pub ghost plane: { IsTrue (is_plane (map item_of list.items)) },
}

impl Plane {
    ghost use Rattle.std.specs.Prelude.{IfOk, IfSome, is_some};
    ghost use Rattle.czi_doc.specs.QueryView.{items_of};

    /// The plane of a list of names, padded with zero bytes, and starts. None exactly where two names are equal, or one of them
    /// is `X`, `Y`, `M` or `S`.
    pub fn new(list: Vec<([u8; 4], i32)>) -> Option<Plane>
        ensures plane { is_some result ≡ is_plane (map item_of list.items) }
        ensures same { IfSome result (λ p. items_of p ≡ list.items) }
    {
        for i in 0..list.len() {
            let name = &list[i].0;
            if is_apart(name) || has_name(name, &list[i + 1..]) {
                return None;
            }
        }
        Some(Plane { list })
    }

    /// The names and starts.
    pub fn list(&self) -> &[([u8; 4], i32)]
        ensures { result.now ≡ items_of self.now }
    {
        self.list.as_slice()
    }

    /// The same plane once more, or want of memory.
    pub fn try_copy(&self) -> Result<Plane, AllocError>
        ensures { IfOk result (λ p. items_of p ≡ items_of self.now) }
    {
        let list = self.list.clone()?;
        Ok(Plane { list })
    }
}

/// Whether a plane doesn't have dimensions of this name.
fn is_apart(name: &[u8; 4]) -> bool
    ensures { result ≡ is_apart name.now }
{
    *name == *b"X\0\0\0" || *name == *b"Y\0\0\0" || *name == *b"M\0\0\0" || *name == *b"S\0\0\0"
}

/// Whether one of these has this name.
fn has_name(name: &[u8; 4], items: &[([u8; 4], i32)]) -> bool
    ensures { result ≡ has_name name.now (map item_of items.now) }
{
    for item in items {
        if item.0 == *name {
            return true;
        }
    }
    false
}
