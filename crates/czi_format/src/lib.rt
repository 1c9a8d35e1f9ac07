//! What a byte list shows as a document of a CZI microscope file, and the laws of reading one.
#![tactic(auto)]

mod numbers;
mod regions;

ghost use Rattle.std.specs.Prelude.{◌≡◌, ◌⊎◌, ℕ, ◌+◌, ◌^◌, ◌<◌, ◌≤◌, ◌++◌, pos, List, length, flat_map};
ghost use Rattle.std.specs.List.{AllByRecursion};
ghost use Rattle.czi_format.specs.Bytes.{IsBytes, bytes_at};
ghost use Rattle.czi_format.specs.FirstFault.{one_after_another};
ghost use Rattle.czi_format.specs.Entry.{Entry, IsEntry, entry, entry_bytes, entry_len};
ghost use Rattle.czi_format.specs.Document.{Document, IsDocument};
ghost use Rattle.czi_format.specs.Live.{Live, document, update_pending};
ghost use Rattle.czi_format.specs.Segment.{Segment, segment_at, header_bytes};
ghost use Rattle.czi_format.specs.Shows.{Reaches, Shows};
ghost use Rattle.czi_format.specs.Refusals.{Refusal, IsRefused};
ghost use Rattle.czi_format.specs.Walk.{IsWalk};
ghost use Rattle.czi_format.specs.Layout.{Layout, HasLayout, IsSteady};
ghost use Rattle.czi_format.specs.Same.{SameLive, SameWalk};
ghost use Rattle.czi_format.specs.Empty.{empty_document, empty_image, empty_layout};

pub use numbers::{
    A1_LEN, ATTDIR_ENTRIES, ATTDIR_FRONT, ATTDIR_POSITION, CONTENTS, CONTENTS_PLACE, DATA_LIMIT,
    DIRECTORY_ENTRIES, DIRECTORY_FRONT, DIRECTORY_POSITION, EMPTY_LEN, FILE_GUID, FILE_HEADER_LEN,
    FILE_PART, HEADER_FRONT, LEAST_HEADER_DATA, LONGEST_ENTRY, METADATA_POSITION, MOST_ATTACHMENTS,
    MOST_SUBBLOCKS, TEXT_LIMIT, UPDATE_PENDING,
};
pub use regions::REGION_LIMIT;

/// An image shows at most one document.
pub fn one_document()
    ensures { (image : List ℕ) (d e : Document) → Shows image d → Shows image e → d ≡ e }
{}

/// An image that shows a document has exactly one layout.
pub fn one_layout()
    ensures exists { (image : List ℕ) (d : Document) → Shows image d → (l : Layout) × HasLayout image l }
    ensures unique { (image : List ℕ) (l m : Layout) → HasLayout image l → HasLayout image m → l ≡ m }
{}

/// Each byte list has exactly one walk.
pub fn one_walk()
    ensures exists { (image : List ℕ) → (walk : List Segment) × IsWalk image walk }
    ensures unique { (image : List ℕ) (v w : List Segment) → IsWalk image v → IsWalk image w → v ≡ w }
{}

/// Each byte list is refused by its first rule that fails, or it shows a document and no update is
/// pending. Never both.
pub fn refused_or_shown()
    ensures either { (image : List ℕ) → ((r : Refusal) × IsRefused image r) ⊎ ((d : Document) × Shows image d × (update_pending image ≡ pos 0)) }
    ensures not_both { (image : List ℕ) (r : Refusal) (d : Document) → IsRefused image r → Shows image d → update_pending image ≡ pos 0 → ⊥ }
{}

/// An image that agrees with another one where that one is read shows the same document. UpdatePending,
/// the length and what lies between the live segments are free.
pub fn shown_by_live_segments()
    ensures { (image other : List ℕ) (live : Live) → Reaches image live → SameLive image other live → Reaches other live × (document other live ≡ document image live) }
{}

/// An image that agrees with another one at the headers that the walk reads has the same walk.
pub fn walk_by_headers()
    ensures { (image other : List ℕ) (walk : List Segment) → length image ≡ length other → SameWalk image other 0 walk → IsWalk image walk → IsWalk other walk }
{}

/// What an image shows has the limits of a document.
pub fn shown_is_document()
    ensures { (image : List ℕ) (d : Document) → IsBytes image → Shows image d → IsDocument d }
{}

/// What is written is read again, whatever follows it: an entry, a list of entries, and a header
/// whose extent lies in the image.
pub fn written_is_read()
    ensures entry { (e : Entry) (rest : List ℕ) → IsEntry e → entry (entry_bytes e ++ rest) ≡ Some e }
    ensures entries { (es : List Entry) (at : ℕ) (rest : List ℕ) → AllByRecursion IsEntry es
        → one_after_another entry entry_len (λ at. at) (length es) at (flat_map entry_bytes es ++ rest) ≡ Ok es }
    ensures header { (image : List ℕ) (s : Segment) → length s.id ≡ 16 → s.allocated < 2 ^ 63 → s.used < 2 ^ 63 → s.at + 32 + s.allocated ≤ length image
        → bytes_at image s.at 32 ≡ header_bytes s → segment_at image s.at ≡ Some s }
{}

/// The 704 bytes of an empty document have its GUID as FileGuid and show it, with no update pending, and are steady: the file
/// header, the directory, and nothing else.
pub fn empty_is_shown()
    ensures long { (guid : List ℕ) → length guid ≡ 16 → length (empty_image guid) ≡ EMPTY_LEN }
    ensures guid { (guid : List ℕ) → length guid ≡ 16 → bytes_at (empty_image guid) FILE_GUID 16 ≡ guid }
    ensures shows { (guid : List ℕ) → length guid ≡ 16 → Shows (empty_image guid) (empty_document guid) × (update_pending (empty_image guid) ≡ pos 0) }
    ensures layout { (guid : List ℕ) → length guid ≡ 16 → HasLayout (empty_image guid) empty_layout }
    ensures steady { (guid : List ℕ) → length guid ≡ 16 → IsSteady (empty_image guid) }
{}
