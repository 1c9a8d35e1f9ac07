//! Attachment directories that list other attachments than before.

ghost use Rattle.std.specs.Prelude.{◌≡◌, ◌+◌, ◌-◌, ◌*◌, ◌^◌, ◌<◌, ◌≤◌, ◌++◌, ◌∷◌, [], length, map, flat_map, vec_len, vec_capacity};
ghost use Rattle.std.specs.List.{AllByRecursion};
ghost use Rattle.czi_format.specs.Entry.{IsA1, a1_bytes};
ghost use Rattle.czi_format.specs.Data.{attdir_data};
ghost use Rattle.czi_region.specs.Pieces.{PutsPiece, bytes_put, room};
ghost use Rattle.czi_image.specs.Change.{AreWithin};
ghost use Rattle.czi_image.specs.View.{att_item_of};
ghost use Rattle.czi_plan.specs.Attaching.{ArePartsOf, att_back, att_count, att_front, att_middle};
ghost use Rattle.czi_plan.specs.Changing.{entries_in, tiles_brought};
ghost use Rattle.czi_plan.specs.Kind.{of_attachments};
ghost use Rattle.czi_plan.specs.Listing.{AreSizes, IsReady, KeepsPut, Lists, Patches, Writes, entries_len, has_room, region_size, size_in};
ghost use Rattle.czi_plan.specs.Marks.{AreSized, marks_of};
ghost use Rattle.czi_plan.specs.Need.{KeepsMemory};

use crate::directory::position_of;
use crate::listing::put_directory;
use crate::marks::{Mark, mark_patch};
use crate::plan::EditPlan;
use crate::tiles::{Parts, Sizes, parts_of};
use czi_att::write_a1;
use czi_format::{A1_LEN, ATTDIR_FRONT, ATTDIR_POSITION, MOST_ATTACHMENTS};
use czi_image::{Act, AttItem, DirItem, DirectoryChange, Index};
use czi_num::write_u32;
use czi_region::{Piece, Region, whole_piece};
use czi_seg::SegId;
use std::slice;

/// What an act brings to a list of attachments.
fn brought_items<'a>(act: &'a Act<AttItem>, items: &'a [AttItem]) -> &'a [AttItem]
    ensures { result.now ≡ tiles_brought act.now }
{
    match act {
        Act::Out(_) => &items[..0],
        Act::Put(_, item) | Act::Into(_, item) => slice::from_ref(item),
    }
}

/// The parts of an act on a list of attachments.
pub fn att_parts<'a>(act: &'a Act<AttItem>, items: &'a [AttItem]) -> Parts<'a, AttItem>
    requires { AreWithin (act.now ∷ []) (length items.now) }
    ensures { ArePartsOf act.now items.now result }
{
    parts_of(act, brought_items(act, items), items)
}

/// How long the parts of an attachment directory's data are after an act with these parts.
pub fn att_sizes(parts: &Parts<AttItem>) -> Sizes
    requires few { att_count parts.now ≤ MOST_ATTACHMENTS }
    requires brought { length parts.now.brought.now ≤ 1 }
    requires leaving { length parts.now.leaving.now ≤ 1 }
    ensures sizes { AreSizes of_attachments result (att_front parts.now) (att_middle parts.now) (att_back parts.now) }
    ensures bound { result.front + result.middle + result.back ≤ 2 ^ 40 }
{
    let front = ATTDIR_FRONT + A1_LEN * parts.before.len();
    let brought = A1_LEN * parts.brought.len();
    let leaving = A1_LEN * parts.leaving.len();
    let behind = A1_LEN * parts.behind.len();
    Sizes::of_parts(front, brought, leaving, behind)
}

/// How many attachments are there after an act with these parts.
fn count_after(parts: &Parts<AttItem>) -> usize
    requires { att_count parts.now ≤ MOST_ATTACHMENTS }
    ensures { result ≡ att_count parts.now }
{
    parts.before.len() + parts.brought.len() + parts.behind.len()
}

/// The entry of an attachment.
fn a1_of(item: &AttItem) -> [u8; A1_LEN]
    ensures written { result ≡ a1_bytes (att_item_of item.now).entry }
    ensures entry { IsA1 (att_item_of item.now).entry }
{
    write_a1(&item.info, position_of(item.span.at))
}

/// Puts the entries of these attachments into a region, behind all that was put.
fn put_a1s(items: &[AttItem], region: &mut Region)
    requires { A1_LEN * length items.now ≤ room region.old }
    ensures bytes { bytes_put region.new ≡ bytes_put region.old ++ flat_map a1_bytes (entries_in of_attachments items.now) }
    ensures left { room region.new + A1_LEN * length items.now ≡ room region.old }
    ensures entries { AllByRecursion IsA1 (entries_in of_attachments items.now) }
{
    for item in items {
        region.put(&a1_of(item));
    }
}

/// Puts the entries that come, and those behind them where they move, into a region. They have so many bytes.
fn stage_middle(parts: &Parts<AttItem>, len: usize, region: &mut Region) -> Piece
    requires brought { length parts.now.brought.now ≤ 1 }
    requires leaving { length parts.now.leaving.now ≤ 1 }
    requires len { len ≡ entries_len of_attachments (att_middle parts.now) }
    requires room { len ≤ room region.old }
    ensures staged { PutsPiece region.old region.new result (flat_map a1_bytes (att_middle parts.now)) }
    ensures entries { AllByRecursion IsA1 (att_middle parts.now) }
    ensures whole { result.len ≡ len }
{
    let front = region.zeros(0);
    put_a1s(parts.brought, region);
    if parts.brought.len() != parts.leaving.len() {
        put_a1s(parts.behind, region);
    }
    whole_piece();
    Piece { at: front.at, len }
}

/// Puts the data of an attachment directory into a region as one piece of `len` bytes, padded with zeros.
fn stage_attdir(parts: &Parts<AttItem>, len: usize, region: &mut Region) -> Piece
    requires few { att_count parts.now ≤ MOST_ATTACHMENTS }
    requires long { size_in of_attachments (att_front parts.now ++ (att_middle parts.now ++ att_back parts.now)) ≤ len }
    requires room { len ≤ room region.old }
    ensures staged { PutsPiece region.old region.new result (attdir_data (att_front parts.now ++ (att_middle parts.now ++ att_back parts.now)) (len - size_in of_attachments (att_front parts.now ++ (att_middle parts.now ++ att_back parts.now)))) }
    ensures entries { AllByRecursion IsA1 (att_front parts.now ++ (att_middle parts.now ++ att_back parts.now)) }
    ensures whole { result.len ≡ len }
{
    let count = count_after(parts);
    let mut head = [0u8; ATTDIR_FRONT];
    write_u32(&mut head, 0, count as u32);
    let front = region.put(&head);
    put_a1s(parts.before, region);
    put_a1s(parts.brought, region);
    put_a1s(parts.behind, region);
    region.zeros(len - ATTDIR_FRONT - A1_LEN * count);
    whole_piece();
    Piece { at: front.at, len }
}

/// Plans what is written of an attachment directory that lies where it lay: its sizes, and the entries that come or move.
fn patch_attdir(
    directory: &DirItem,
    parts: &Parts<AttItem>,
    region: &mut Region,
    marks: &mut Vec<Mark>,
)
    requires few { att_count parts.now ≤ MOST_ATTACHMENTS }
    requires brought { length parts.now.brought.now ≤ 1 }
    requires leaving { length parts.now.leaving.now ≤ 1 }
    requires long { has_room directory.now (size_in of_attachments (att_front parts.now ++ (att_middle parts.now ++ att_back parts.now))) }
    requires room { entries_len of_attachments (att_middle parts.now) ≤ room region.old }
    requires marks_room { vec_len marks.old + 3 ≤ vec_capacity marks.old }
    ensures patches { Patches of_attachments directory.now (att_front parts.now) (att_middle parts.now) (att_back parts.now) (marks_of region.new marks.old.items) (marks_of region.new marks.new.items) }
    ensures sized { AreSized region.new marks.old.items → AreSized region.new marks.new.items }
    ensures kept { KeepsPut region.old region.new }
    ensures region { region_size region.new ≡ region_size region.old }
    ensures len { vec_len marks.new ≤ vec_len marks.old + 3 }
    ensures capacity { vec_capacity marks.old ≤ vec_capacity marks.new }
{
    let sizes = att_sizes(parts);
    let entries = stage_middle(parts, sizes.middle, region);
    let used = sizes.total();
    let count = count_after(parts);
    mark_patch(directory.span.at, used, count, sizes.front, entries, marks);
}

/// Plans a new attachment directory: one write of its data, its header and the pointer to it.
fn write_attdir(
    directory: &DirItem,
    parts: &Parts<AttItem>,
    region: &mut Region,
    out: &mut EditPlan,
)
    requires few { att_count parts.now ≤ MOST_ATTACHMENTS }
    requires brought { length parts.now.brought.now ≤ 1 }
    requires leaving { length parts.now.leaving.now ≤ 1 }
    requires long { has_room directory.now (size_in of_attachments (att_front parts.now ++ (att_middle parts.now ++ att_back parts.now))) }
    requires room { directory.now.span.len - 32 ≤ room region.old }
    requires writes_room { vec_len out.old.writes < vec_capacity out.old.writes }
    requires used_room { vec_len out.old.used < vec_capacity out.old.used }
    requires marks_room { vec_len out.old.marks + 2 ≤ vec_capacity out.old.marks }
    ensures writes { Writes of_attachments directory.now (att_front parts.now ++ (att_middle parts.now ++ att_back parts.now)) region.new out.old out.new (marks_of region.new out.old.marks.items) (marks_of region.new out.new.marks.items) }
    ensures sized { AreSized region.new out.old.marks.items → AreSized region.new out.new.marks.items }
    ensures kept { KeepsPut region.old region.new }
    ensures region { region_size region.new ≡ region_size region.old }
    ensures len { vec_len out.new.marks ≤ vec_len out.old.marks + 3 }
    ensures memory { KeepsMemory out.old out.new }
{
    let len = (directory.span.len - 32) as usize;
    let used = att_sizes(parts).total();
    let piece = stage_attdir(parts, len, region);
    put_directory(
        directory,
        ATTDIR_POSITION as u64,
        SegId::AttDir,
        used,
        piece,
        out,
    );
}

/// Plans an attachment directory, once it is known what becomes of it. It takes no memory.
pub fn list_attachments(
    index: &Index,
    parts: &Parts<AttItem>,
    region: &mut Region,
    out: &mut EditPlan,
)
    requires few { att_count parts.now ≤ MOST_ATTACHMENTS }
    requires brought { length parts.now.brought.now ≤ 1 }
    requires leaving { length parts.now.leaving.now ≤ 1 }
    requires ready { IsReady index.now.attdir (size_in of_attachments (att_front parts.now ++ (att_middle parts.now ++ att_back parts.now))) (entries_len of_attachments (att_middle parts.now)) (room region.old) out.old.change.attdir }
    requires writes_room { vec_len out.old.writes < vec_capacity out.old.writes }
    requires used_room { vec_len out.old.used < vec_capacity out.old.used }
    requires marks_room { vec_len out.old.marks + 3 ≤ vec_capacity out.old.marks }
    ensures lists { Lists of_attachments index.now.attdir out.old.change.attdir (att_front parts.now) (att_middle parts.now) (att_back parts.now) region.new out.old out.new (marks_of region.new out.old.marks.items) (marks_of region.new out.new.marks.items) }
    ensures sized { AreSized region.new out.old.marks.items → AreSized region.new out.new.marks.items }
    ensures kept { KeepsPut region.old region.new }
    ensures region { region_size region.new ≡ region_size region.old }
    ensures len { vec_len out.new.marks ≤ vec_len out.old.marks + 3 }
    ensures memory { KeepsMemory out.old out.new }
{
    match out.change.attdir {
        DirectoryChange::Kept => {}
        DirectoryChange::Patched => {
            if let Some(directory) = &index.attdir {
                patch_attdir(directory, parts, region, &mut out.marks);
            }
        }
        DirectoryChange::New(directory) => {
            write_attdir(&directory, parts, region, out);
        }
    }
}
