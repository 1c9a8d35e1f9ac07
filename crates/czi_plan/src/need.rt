//! How much memory the plan of an inverse takes.

ghost use Rattle.std.specs.Prelude.{◌≡◌, ◌+◌, ◌*◌, ◌^◌, ◌≤◌, length, map};
ghost use Rattle.czi_format.specs.Entry.{entry_len as len_of};
ghost use Rattle.czi_image.specs.View.{tile_of};
ghost use Rattle.czi_image.specs.Summary.{entries_len};
ghost use Rattle.czi_plan.specs.Need.{NeedsRise, SparesLess, UndoRoomRises, UndosHaveRoom, UndosNeedNoMore, brought_by, brought_len, changes_attachments, changes_tiles, directories_by, directory_room, need_by, need_of_lists, need_of_undo, of_attachments, of_subblocks, region_by, undo_room};

use crate::listing::{LONGEST_RANGE, with_slack};
use czi_dv::entry_len;
use czi_format::{A1_LEN, ATTDIR_FRONT, DIRECTORY_FRONT, LONGEST_ENTRY};
use czi_image::Index;
use czi_num::round32;
use czi_undo::{Inverse, Part};

/// How many bytes of a header are a link.
const HEADER_LEN: usize = 32;

/// How many DELETED extents a span touches at most, and how many more come of it.
const TOUCHED: usize = 12;

/// How much memory a plan takes.
#[derive(Clone, Copy, PartialEq, Eq)]
pub struct Need {
    /// The bytes of its region.
    pub region: usize,
    /// Its writes before the commit.
    pub writes: usize,
    /// Its links.
    pub links: usize,
    /// The bytes that they put.
    pub link_bytes: usize,
    /// The spans that are used, those that are freed, and the items that come back: of each so many.
    pub spans: usize,
    /// The DELETED extents that those spans touch, and what becomes of these.
    pub touched: usize,
}

/// How many links there are at most for so many edits, which bring so many directories: each edit brings a header, uses a span
/// and frees another, and so does each directory; a span that is used leaves two DELETED extents, and one that is freed makes
/// one. A directory has three more links, and the metadata a pointer.
fn links_for(edits: usize, directories: usize) -> usize
    requires edits { edits ≤ 64 }
    requires directories { directories ≤ 2 }
    ensures { result ≡ 4 * edits + 6 * directories + 1 }
{
    4 * edits + 6 * directories + 1
}

/// How much memory the lists take for so many edits, which write so many segments and bring so many directories.
fn need_of_lists(edits: usize, directories: usize, region: usize, writes: usize) -> Need
    requires edits { edits ≤ 64 }
    requires directories { directories ≤ 2 }
    ensures { result ≡ need_of_lists edits directories region writes }
{
    let links = links_for(edits, directories);
    let spans = edits + directories;
    Need {
        region,
        writes,
        links,
        link_bytes: HEADER_LEN * links + LONGEST_RANGE * directories,
        spans,
        touched: TOUCHED * spans,
    }
}

/// How much an edit takes that brings so many directories, without its region.
pub(crate) fn need_of_edit(directories: usize) -> Need
    requires { directories ≤ 1 }
    ensures { result ≡ need_of_lists 1 directories 0 (1 + directories) }
{
    need_of_lists(1, directories, 0, 1 + directories)
}

/// Whether an inverse changes the list of subblocks.
pub(crate) fn of_subblocks(part: &Part) -> bool
    ensures { result ≡ of_subblocks part.now }
{
    match part {
        Part::DropSub { .. } | Part::PutSub { .. } | Part::InsertSub { .. } => true,
        _ => false,
    }
}

/// Whether an inverse changes the list of attachments.
fn of_attachments(part: &Part) -> bool
    ensures { result ≡ of_attachments part.now }
{
    match part {
        Part::DropAtt { .. } | Part::PutAtt { .. } | Part::InsertAtt { .. } => true,
        _ => false,
    }
}

/// How many bytes the entry has that an inverse brings.
fn brought_len(part: &Part) -> usize
    ensures len { result ≡ brought_len part.now }
    ensures bound { result ≤ 832 }
{
    match part {
        Part::PutSub { info, .. } | Part::InsertSub { info, .. } => entry_len(info),
        Part::PutAtt { .. } | Part::InsertAtt { .. } => A1_LEN,
        _ => 0,
    }
}

/// How many bytes the entries have that inverses bring.
fn brought_by(parts: &[Part]) -> usize
    requires few { length parts.now ≤ 64 }
    ensures len { result ≡ brought_by parts.now }
    ensures bound { result ≤ 832 * 64 }
{
    let mut len = 0;
    for part in parts {
        len += brought_len(part);
    }
    len
}

/// Whether inverses change the list of subblocks.
fn changes_tiles(parts: &[Part]) -> bool
    ensures { result ≡ changes_tiles parts.now }
{
    parts.iter().any(|part| of_subblocks(part))
}

/// Whether inverses change the list of attachments.
fn changes_attachments(parts: &[Part]) -> bool
    ensures { result ≡ changes_attachments parts.now }
{
    parts.iter().any(|part| of_attachments(part))
}

/// How many bytes the padded data of a new directory has, without padding and room for more so many.
fn directory_room(len: usize) -> usize
    requires { len ≤ 2 ^ 40 }
    ensures len { result ≡ directory_room len }
    ensures bound { result ≤ 2 ^ 42 }
{
    round32(with_slack(len) as u64) as usize
}

/// How many bytes of a region the directories take that inverses change.
fn region_by(parts: &[Part], entries: usize, attachments: usize) -> usize
    requires few { length parts.now ≤ 64 }
    requires entries { entries ≤ 2 ^ 32 }
    requires attachments { attachments ≤ 2 ^ 12 }
    ensures { result ≡ region_by parts.now entries attachments }
{
    let brought = brought_by(parts);
    let mut len = 0;
    if changes_tiles(parts) {
        len += directory_room(DIRECTORY_FRONT + entries + brought);
    }
    if changes_attachments(parts) {
        len += directory_room(ATTDIR_FRONT + A1_LEN * attachments + brought);
    }
    len
}

/// How much the plan of an inverse takes, whatever the layout is. It takes no memory.
///
/// The numbers hang on the inverse, on how many bytes the entries of the index's subblocks have, and on how many attachments
/// it has; none of them falls where one of these rises. So an edit, or an opening, can make the room for an undo on a later
/// index.
pub fn need_of_inverse(index: &Index, inverse: &Inverse) -> Need
    ensures need { result ≡ need_by inverse.now.parts.items (entries_len (map tile_of index.now.tiles.items)) (length index.now.attachments.items) }
    ensures rises { NeedsRise }
{
    let parts = inverse.parts.as_slice();
    let directories = changes_tiles(parts) as usize + changes_attachments(parts) as usize;
    let region = region_by(parts, index.entries_len(), index.attachments.len());
    need_of_lists(parts.len(), directories, region, directories)
}

/// How much the plan of one undo of a single edit takes at most, whatever the index is, but for its region.
pub fn need_of_undo() -> Need
    ensures need { result ≡ need_of_undo }
    ensures most { UndosNeedNoMore }
    ensures spared { SparesLess }
{
    need_of_lists(1, 1, 0, 1)
}

/// How many bytes of a region suffice for each of so many undos of single edits, one after another, on an index and on those that
/// the undos make of it.
pub fn room_for_undos(index: &Index, more: usize) -> usize
    requires { more ≤ 128 }
    ensures room { result ≡ undo_room (entries_len (map tile_of index.now.tiles.items)) (length index.now.attachments.items) more }
    ensures suffices { UndosHaveRoom }
    ensures rises { UndoRoomRises }
{
    let tiles = directory_room(DIRECTORY_FRONT + index.entries_len() + LONGEST_ENTRY * more);
    let attachments = directory_room(ATTDIR_FRONT + A1_LEN * (index.attachments.len() + more));
    tiles.max(attachments)
}
