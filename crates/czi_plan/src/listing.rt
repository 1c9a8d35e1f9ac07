//! Directories that list other items than before.

ghost use Rattle.std.specs.Prelude.{◌≡◌, ◌+◌, ◌^◌, ◌<◌, ◌≤◌, ◌++◌, ◌∷◌, [], ◌-◌, true, false, length, map, max, IfOk, IfErr, vec_len, vec_capacity};
ghost use Rattle.czi_format.specs.Space.{fit, use_all};
ghost use Rattle.czi_num.specs.Span.{span_of};
ghost use Rattle.czi_machine.specs.Places.{with_slack};
ghost use Rattle.czi_seg.specs.View.{id_bytes};
ghost use Rattle.czi_region.specs.Pieces.{room};
ghost use Rattle.czi_region.specs.declared.block.Region.{Region as TheRegion};
ghost use Rattle.czi_space.specs.State.{AreExtents, space_of};
ghost use Rattle.czi_plan.specs.Directory.{directory_size, listed, listed_back, listed_front, listed_middle, need_of};
ghost use Rattle.czi_plan.specs.Listing.{AreSizes, IsPlace, IsReady, KeepsPut, Lists, Patches, Writes, fits_in_place, has_room, region_size};
ghost use Rattle.czi_plan.specs.Marks.{AddsMarks, AreSized, head_mark, marks_of, pointer_mark};
ghost use Rattle.czi_plan.specs.Need.{KeepsMemory};
ghost use Rattle.czi_plan.specs.Placing.{HasNoPlace, IsFull};
ghost use Rattle.czi_plan.specs.Kind.{of_subblocks};

use crate::directory::{count_of, stage_directory, stage_middle};
use crate::marks::{Mark, mark_header, mark_patch, mark_pointer};
use crate::placing::{place, walks_at};
use crate::plan::{EditPlan, PlanFault};
use crate::spare::put;
use crate::tiles::{Listing, Sizes};
use czi_format::{DIRECTORY_POSITION, HEADER_FRONT, MOST_SUBBLOCKS};
use czi_image::{DirItem, DirectoryChange, Index};
use czi_num::{Span, round32};
use czi_region::{Piece, Region};
use czi_seg::{SegHeader, SegId};
use czi_space::Map;

/// How many bytes of a directory's data are written in place at most.
pub const LONGEST_RANGE: usize = 65_536;

/// The least room for more that a new directory has, in bytes.
const LEAST_SLACK: usize = 1024;

/// Whether a directory is changed in place: it has room for data of a size, of which a range is written.
fn fits_in_place(directory: &Option<DirItem>, size: usize, range: usize) -> bool
    requires { size ≤ 2 ^ 40 }
    ensures { result ≡ fits_in_place directory.now size range }
{
    match directory {
        Some(directory) => { 32 + size as u64 <= directory.span.len && range <= LONGEST_RANGE }
        None => false,
    }
}

/// The size of a directory's data with room for more.
pub fn with_slack(size: usize) -> usize
    requires { size ≤ 2 ^ 40 }
    ensures { result ≡ with_slack size }
{
    size + (size / 4).max(LEAST_SLACK)
}

/// What becomes of a directory of either kind that lists other items: it is changed in place where it has room for the
/// new data and the range of it that is written isn't long, and else a new one goes where its need fits.
pub fn plan_directory(
    index: &Index,
    space: &Map,
    used: &[Span],
    directory: &Option<DirItem>,
    size: usize,
    range: usize,
) -> Result<DirectoryChange, PlanFault>
    requires rise { AreExtents 0 space.now.length space.now.extents }
    requires small { space.now.length ≤ 2 ^ 62 }
    requires few { size ≤ 2 ^ 40 }
    ensures place { IfOk result (IsPlace index.now directory.now size range (use_all (space_of space.now) (map span_of used.now))) }
    ensures full { IfErr result (λ fault. (fits_in_place directory.now size range ≡ false) × IsFull fault (fit (use_all (space_of space.now) (map span_of used.now)) (need_of size))) }
    ensures never { IfErr result HasNoPlace }
{
    let here = fits_in_place(directory, size, range);
    if here {
        return Ok(DirectoryChange::Patched);
    }
    let span = place(space, used, 32 + round32(with_slack(size) as u64))?;
    let walked = walks_at(index, span.at);
    Ok(DirectoryChange::New(DirItem { span, walked }))
}

/// Plans what is written of a directory of subblocks that lies where it lay: its sizes, and the entries that come or move.
fn patch_tiles(
    directory: &DirItem,
    listing: &Listing,
    sizes: &Sizes,
    region: &mut Region,
    marks: &mut Vec<Mark>,
)
    requires few { length (listed listing.now) ≤ MOST_SUBBLOCKS }
    requires sizes { AreSizes of_subblocks sizes.now (listed_front listing.now) (listed_middle listing.now) (listed_back listing.now) }
    requires long { has_room directory.now (directory_size (listed listing.now)) }
    requires room { sizes.now.middle ≤ room region.old }
    requires marks_room { vec_len marks.old + 3 ≤ vec_capacity marks.old }
    ensures patches { Patches of_subblocks directory.now (listed_front listing.now) (listed_middle listing.now) (listed_back listing.now) (marks_of region.new marks.old.items) (marks_of region.new marks.new.items) }
    ensures sized { AreSized region.new marks.old.items → AreSized region.new marks.new.items }
    ensures kept { KeepsPut region.old region.new }
    ensures region { region_size region.new ≡ region_size region.old }
    ensures len { vec_len marks.new ≤ vec_len marks.old + 3 }
    ensures capacity { vec_capacity marks.old ≤ vec_capacity marks.new }
{
    let entries = stage_middle(listing, sizes.middle, region);
    let used = sizes.total();
    let count = count_of(listing);
    mark_patch(directory.span.at, used, count, sizes.front, entries, marks);
}

/// Plans a new directory of either kind whose data is a piece: that is one write, and the pointer to it and its header are
/// links.
pub fn put_directory(
    directory: &DirItem,
    pointer: u64,
    id: SegId,
    used: usize,
    piece: Piece,
    out: &mut EditPlan,
)
    requires low { pointer ≤ HEADER_FRONT }
    requires id { length (id_bytes id) ≡ 16 }
    requires small { used ≤ 2 ^ 62 }
    requires writes_room { vec_len out.old.writes < vec_capacity out.old.writes }
    requires used_room { vec_len out.old.used < vec_capacity out.old.used }
    requires marks_room { vec_len out.old.marks + 2 ≤ vec_capacity out.old.marks }
    ensures writes { out.new.writes.items ≡ out.old.writes.items ++ (directory.now.span.at + 32, piece) ∷ [] }
    ensures used { out.new.used.items ≡ out.old.used.items ++ directory.now.span ∷ [] }
    ensures end { out.new.length ≡ max out.old.length (directory.now.span.at + directory.now.span.len) }
    ensures others { out.new ≡ record out.old { writes = out.new.writes; used = out.new.used; length = out.new.length; marks = out.new.marks } }
    ensures marks { (r : TheRegion) → AddsMarks r out.old.marks.items out.new.marks.items (pointer_mark pointer directory.now.span.at ∷ head_mark (record { at = directory.now.span.at; id = id_bytes id; allocated = directory.now.span.len - 32; used = used }) ∷ []) }
    ensures len { vec_len out.new.marks ≤ vec_len out.old.marks + 3 }
    ensures memory { KeepsMemory out.old out.new }
{
    let span = directory.span;
    let header = SegHeader {
        id,
        allocated: span.len - 32,
        used: used as u64,
    };
    put(&mut out.writes, (span.at + 32, piece));
    put(&mut out.used, span);
    out.length = out.length.max(span.at + span.len);
    mark_pointer(pointer, span.at, &mut out.marks);
    mark_header(span.at, &header, &mut out.marks);
}

/// Plans a new directory of subblocks: one write of its data, its header and the pointer to it.
fn write_tiles(
    directory: &DirItem,
    listing: &Listing,
    sizes: &Sizes,
    region: &mut Region,
    out: &mut EditPlan,
)
    requires few { length (listed listing.now) ≤ MOST_SUBBLOCKS }
    requires sizes { AreSizes of_subblocks sizes.now (listed_front listing.now) (listed_middle listing.now) (listed_back listing.now) }
    requires long { has_room directory.now (directory_size (listed listing.now)) }
    requires room { directory.now.span.len - 32 ≤ room region.old }
    requires writes_room { vec_len out.old.writes < vec_capacity out.old.writes }
    requires used_room { vec_len out.old.used < vec_capacity out.old.used }
    requires marks_room { vec_len out.old.marks + 2 ≤ vec_capacity out.old.marks }
    ensures writes { Writes of_subblocks directory.now (listed listing.now) region.new out.old out.new (marks_of region.new out.old.marks.items) (marks_of region.new out.new.marks.items) }
    ensures sized { AreSized region.new out.old.marks.items → AreSized region.new out.new.marks.items }
    ensures kept { KeepsPut region.old region.new }
    ensures region { region_size region.new ≡ region_size region.old }
    ensures len { vec_len out.new.marks ≤ vec_len out.old.marks + 3 }
    ensures memory { KeepsMemory out.old out.new }
{
    let len = (directory.span.len - 32) as usize;
    let piece = stage_directory(listing, len, region);
    put_directory(
        directory,
        DIRECTORY_POSITION as u64,
        SegId::Directory,
        sizes.total(),
        piece,
        out,
    );
}

/// Plans a directory of subblocks, once it is known what becomes of it. It takes no memory.
pub fn list_tiles(
    index: &Index,
    listing: &Listing,
    sizes: &Sizes,
    region: &mut Region,
    out: &mut EditPlan,
)
    requires few { length (listed listing.now) ≤ MOST_SUBBLOCKS }
    requires sizes { AreSizes of_subblocks sizes.now (listed_front listing.now) (listed_middle listing.now) (listed_back listing.now) }
    requires ready { IsReady index.now.directory (directory_size (listed listing.now)) sizes.now.middle (room region.old) out.old.change.directory }
    requires writes_room { vec_len out.old.writes < vec_capacity out.old.writes }
    requires used_room { vec_len out.old.used < vec_capacity out.old.used }
    requires marks_room { vec_len out.old.marks + 3 ≤ vec_capacity out.old.marks }
    ensures lists { Lists of_subblocks index.now.directory out.old.change.directory (listed_front listing.now) (listed_middle listing.now) (listed_back listing.now) region.new out.old out.new (marks_of region.new out.old.marks.items) (marks_of region.new out.new.marks.items) }
    ensures sized { AreSized region.new out.old.marks.items → AreSized region.new out.new.marks.items }
    ensures kept { KeepsPut region.old region.new }
    ensures region { region_size region.new ≡ region_size region.old }
    ensures len { vec_len out.new.marks ≤ vec_len out.old.marks + 3 }
    ensures memory { KeepsMemory out.old out.new }
{
    match out.change.directory {
        DirectoryChange::Kept => {}
        DirectoryChange::Patched => {
            if let Some(directory) = &index.directory {
                patch_tiles(directory, listing, sizes, region, &mut out.marks);
            }
        }
        DirectoryChange::New(directory) => {
            write_tiles(&directory, listing, sizes, region, out);
        }
    }
}
