//! The plans of attachments.

ghost use Rattle.std.specs.Prelude.{◌≡◌, ℕ, ◌+◌, ◌^◌, ◌<◌, ◌≤◌, ◌∷◌, [], Some, length, map, IfErr, OnOk, IsSome, bytes_eq};
ghost use Rattle.czi_doc.specs.View.{att_of};
ghost use Rattle.czi_format.specs.Key.{attachment_key};
ghost use Rattle.czi_image.specs.Change.{act_of};
ghost use Rattle.czi_image.specs.View.{att_item_of};
ghost use Rattle.czi_image.specs.declared.change.Act.TheVariants.{Out};
ghost use Rattle.czi_machine.specs.Change.{into, out as taken_out, put};
ghost use Rattle.czi_machine.specs.Edit.{in_attachments};
ghost use Rattle.czi_region.specs.Pieces.{bytes_put, room};
ghost use Rattle.czi_space.specs.State.{space_of};
ghost use Rattle.czi_plan.specs.Attaching.{attachment_in};
ghost use Rattle.czi_plan.specs.Bringing.{IsSeat, act_at};
ghost use Rattle.czi_plan.specs.Changing.{Stages, Starts, edited, range_after, size_after};
ghost use Rattle.czi_plan.specs.Conditions.{IsEmpty, IsMapOf};
ghost use Rattle.czi_plan.specs.Does.{Does, HasNoPlan};
ghost use Rattle.czi_plan.specs.Kind.{of_attachments};
ghost use Rattle.czi_plan.specs.Listing.{HasRoomFor, IsPlace};
ghost use Rattle.czi_plan.specs.Need.{HasSpare, need_of_lists};
ghost use Rattle.czi_plan.specs.Plan.{IsBrief, IsPlan};
ghost use Rattle.czi_plan.specs.Search.{attachment_with};

use crate::attachment_acts::{new_attachment, stage_attached, stage_attachment_act};
use crate::attachments::{att_parts, att_sizes};
use crate::bringing::Seat;
use crate::changing::take_memory;
use crate::listing::plan_directory;
use crate::names::{attachment_key, attachment_with};
use crate::placing::place;
use crate::plan::{EditPlan, PlanFault};
use czi_att::att_size;
use czi_doc::{AttInfo, DATA_LIMIT};
use czi_format::MOST_ATTACHMENTS;
use czi_image::{Act, Index};
use czi_region::Region;
use czi_space::Map;

/// Plans what the removal of the attachment at a place writes, once it is known what becomes of the directory. It takes no memory.
fn stage_detachment(index: &Index, space: &Map, i: usize, region: &mut Region, out: &mut EditPlan)
    requires starts { Starts of_attachments space.now [] out.old }
    requires no_writes { out.old.writes.items ≡ [] }
    requires no_marks { out.old.marks.items ≡ [] }
    requires of_index { IsMapOf index.now space.now }
    requires inside { i < length index.now.attachments.items }
    requires place { IsPlace index.now index.now.attdir (size_after of_attachments (Out i) index.now) (range_after of_attachments (Out i) index.now) (space_of space.now) out.old.change.attdir }
    requires room { HasRoomFor out.old.change.attdir (range_after of_attachments (Out i) index.now) (room region.old) }
    requires spare { HasSpare (need_of_lists 1 1 0 1) out.old }
    ensures { Stages of_attachments index.now space.now (Out i) (edited (taken_out i)) region.new out.old.change.attdir out.new }
{
    stage_attachment_act(index, space, Act::Out(i), region, out);
}

/// Plans the removal of the attachment at a place of the directory, as `plan_detach` does.
///
/// # Errors
///
/// `Full` exactly where the directory isn't changed in place and a new one has no place, and else `Memory`. Nothing is
/// said of `region` and `out` then.
pub fn plan_detach_at(
    index: &Index,
    space: &Map,
    i: usize,
    region: &mut Region,
    out: &mut EditPlan,
) -> Result<(), PlanFault>
    requires empty { IsEmpty out.old }
    requires reset { bytes_put region.old ≡ [] }
    requires of_index { IsMapOf index.now space.now }
    requires inside { i < length index.now.attachments.items }
    ensures plan { OnOk result (IsPlan index.now space.now region.new out.new) }
    ensures does { OnOk result (Does index.now space.now region.new out.new (in_attachments (taken_out i))) }
    ensures held { OnOk result (length out.new.held.items ≤ 1) }
    ensures brief { OnOk result (IsBrief out.new) }
    ensures full { IfErr result (HasNoPlan index.now space.now (in_attachments (taken_out i))) }
{
    out.length = space.length();
    let act = Act::Out(i);
    let parts = att_parts(&act, &index.attachments);
    let sizes = att_sizes(&parts);
    let (size, range) = (sizes.total(), sizes.middle);
    out.change.attdir = plan_directory(index, space, &[], &index.attdir, size, range)?;
    let change = out.change.attdir;
    take_memory(0, range, change, region, out)?;
    stage_detachment(index, space, i, region, out);
    Ok(())
}

/// Plans an edit that brings an attachment: its place is found, then that of the directory in the space that is left, and
/// only then memory is asked for, all at once.
fn plan_attached(
    index: &Index,
    space: &Map,
    seat: Seat,
    info: &AttInfo,
    bytes: &[u8],
    region: &mut Region,
    out: &mut EditPlan,
) -> Result<(), PlanFault>
    requires empty { IsEmpty out.old }
    requires reset { bytes_put region.old ≡ [] }
    requires of_index { IsMapOf index.now space.now }
    requires seat { IsSeat seat (length index.now.attachments.items) (MOST_ATTACHMENTS) }
    requires bytes { length bytes.now ≤ DATA_LIMIT }
    ensures plan { OnOk result (IsPlan index.now space.now region.new out.new) }
    ensures does { OnOk result (Does index.now space.now region.new out.new (in_attachments (act_of (act_at seat (attachment_in info.now bytes.now))))) }
    ensures held { OnOk result (length out.new.held.items ≤ 1) }
    ensures brief { OnOk result (IsBrief out.new) }
    ensures full { IfErr result (HasNoPlan index.now space.now (in_attachments (act_of (act_at seat (attachment_in info.now bytes.now))))) }
{
    out.length = space.length();
    let span = place(space, &[], 32 + att_size(bytes.len()) as u64)?;
    let item = new_attachment(index, info, bytes.len(), span);
    let act = seat.act(item);
    let parts = att_parts(&act, &index.attachments);
    let sizes = att_sizes(&parts);
    let (size, range) = (sizes.total(), sizes.middle);
    out.change.attdir = plan_directory(index, space, &[span], &index.attdir, size, range)?;
    let change = out.change.attdir;
    take_memory(att_size(bytes.len()), range, change, region, out)?;
    stage_attached(index, space, seat, &item, bytes, region, out);
    Ok(())
}

/// Plans a new attachment, which comes behind all others.
///
/// The attachment goes where its need fits first, and then the directory is planned in the space that is left: in place where
/// it has room for one entry more, of which nothing but that entry is written, and else a new one with room for more. The
/// attachment's data are one write, from a piece of the region, into which the bytes are copied once, and its header is a
/// link.
///
/// # Errors
///
/// `Full` exactly where the attachment or a new directory has no place, and else `Memory`. Nothing is said of `region` and
/// `out` then.
pub fn plan_attach(
    index: &Index,
    space: &Map,
    info: &AttInfo,
    bytes: &[u8],
    region: &mut Region,
    out: &mut EditPlan,
) -> Result<(), PlanFault>
    requires empty { IsEmpty out.old }
    requires reset { bytes_put region.old ≡ [] }
    requires of_index { IsMapOf index.now space.now }
    requires few { length index.now.attachments.items < MOST_ATTACHMENTS }
    requires bytes { length bytes.now ≤ DATA_LIMIT }
    ensures plan { OnOk result (IsPlan index.now space.now region.new out.new) }
    ensures does { OnOk result (Does index.now space.now region.new out.new (in_attachments (into (length index.now.attachments.items) (attachment_in info.now bytes.now)))) }
    ensures held { OnOk result (length out.new.held.items ≤ 1) }
    ensures brief { OnOk result (IsBrief out.new) }
    ensures full { IfErr result (HasNoPlan index.now space.now (in_attachments (into (length index.now.attachments.items) (attachment_in info.now bytes.now)))) }
{
    let seat = Seat::Before(index.attachments.len());
    plan_attached(index, space, seat, info, bytes, region, out)
}

/// Plans the replacement of the attachment at a place of the directory, as `plan_reattach` does.
///
/// # Errors
///
/// `Full` exactly where the attachment or a new directory has no place, and else `Memory`. Nothing is said of `region` and
/// `out` then.
pub fn plan_reattach_at(
    index: &Index,
    space: &Map,
    i: usize,
    info: &AttInfo,
    bytes: &[u8],
    region: &mut Region,
    out: &mut EditPlan,
) -> Result<(), PlanFault>
    requires empty { IsEmpty out.old }
    requires reset { bytes_put region.old ≡ [] }
    requires of_index { IsMapOf index.now space.now }
    requires inside { i < length index.now.attachments.items }
    requires bytes { length bytes.now ≤ DATA_LIMIT }
    ensures plan { OnOk result (IsPlan index.now space.now region.new out.new) }
    ensures does { OnOk result (Does index.now space.now region.new out.new (in_attachments (put i (attachment_in info.now bytes.now)))) }
    ensures held { OnOk result (length out.new.held.items ≤ 1) }
    ensures brief { OnOk result (IsBrief out.new) }
    ensures full { IfErr result (HasNoPlan index.now space.now (in_attachments (put i (attachment_in info.now bytes.now)))) }
{
    plan_attached(index, space, Seat::Over(i), info, bytes, region, out)
}

/// Plans the replacement of the first attachment that has the name of the new one, up to its first zero byte. The new one stands
/// in its place in the directory, and lies elsewhere: the old one's span is held.
///
/// The attachment goes where its need fits first, and then the directory is planned in the space that is left, as for a new
/// one: in place nothing but the one entry is written. The attachment's data are one write, from a piece of the region, into
/// which the bytes are copied once, and its header is a link.
///
/// # Errors
///
/// `Full` exactly where the attachment or a new directory has no place, and else `Memory`. Nothing is said of `region` and
/// `out` then.
pub fn plan_reattach(
    index: &Index,
    space: &Map,
    info: &AttInfo,
    bytes: &[u8],
    region: &mut Region,
    out: &mut EditPlan,
) -> Result<(), PlanFault>
    requires empty { IsEmpty out.old }
    requires reset { bytes_put region.old ≡ [] }
    requires of_index { IsMapOf index.now space.now }
    requires some { IsSome (attachment_with (attachment_key (att_of info.now)) (map att_item_of index.now.attachments.items)) }
    requires bytes { length bytes.now ≤ DATA_LIMIT }
    ensures plan { OnOk result (IsPlan index.now space.now region.new out.new) }
    ensures does { OnOk result ((i : ℕ) → attachment_with (attachment_key (att_of info.now)) (map att_item_of index.now.attachments.items) ≡ Some i → Does index.now space.now region.new out.new (in_attachments (put i (attachment_in info.now bytes.now)))) }
    ensures held { OnOk result (length out.new.held.items ≤ 1) }
    ensures brief { OnOk result (IsBrief out.new) }
    ensures full { IfErr result (λ fault. (i : ℕ) → attachment_with (attachment_key (att_of info.now)) (map att_item_of index.now.attachments.items) ≡ Some i → HasNoPlan index.now space.now (in_attachments (put i (attachment_in info.now bytes.now))) fault) }
{
    let i = attachment_with(index, attachment_key(info)).unwrap();
    plan_reattach_at(index, space, i, info, bytes, region, out)
}

/// Plans the removal of the first attachment with a name.
///
/// The directory is changed in place where it has room for the entries of the others and those behind the attachment are at most
/// 65,536 bytes: its UsedSize, its EntryCount and these entries are links. Else a new directory, with room for more, goes where
/// its need fits first: its data are one write, from a piece of the region, and AttachmentDirectoryPosition and its header are
/// links.
///
/// # Errors
///
/// `Full` exactly where the directory isn't changed in place and a new one has no place, and else `Memory`. Nothing is
/// said of `region` and `out` then.
pub fn plan_detach(
    index: &Index,
    space: &Map,
    name: &[u8],
    region: &mut Region,
    out: &mut EditPlan,
) -> Result<(), PlanFault>
    requires empty { IsEmpty out.old }
    requires reset { bytes_put region.old ≡ [] }
    requires of_index { IsMapOf index.now space.now }
    requires some { IsSome (attachment_with name.now (map att_item_of index.now.attachments.items)) }
    ensures plan { OnOk result (IsPlan index.now space.now region.new out.new) }
    ensures does { OnOk result ((i : ℕ) → attachment_with name.now (map att_item_of index.now.attachments.items) ≡ Some i → Does index.now space.now region.new out.new (in_attachments (taken_out i))) }
    ensures held { OnOk result (length out.new.held.items ≤ 1) }
    ensures brief { OnOk result (IsBrief out.new) }
    ensures full { IfErr result (λ fault. (i : ℕ) → attachment_with name.now (map att_item_of index.now.attachments.items) ≡ Some i → HasNoPlan index.now space.now (in_attachments (taken_out i)) fault) }
{
    let i = attachment_with(index, name).unwrap();
    plan_detach_at(index, space, i, region, out)
}
