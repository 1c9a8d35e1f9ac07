//! What leaves and is freed, and the map of free space once it is.

ghost use Rattle.std.specs.Prelude.{◌≡◌, ◌⊎◌, ◌+◌, ◌*◌, ◌≤◌, ◌++◌, ◌<◌, ◌∷◌, [], map, length, vec_len, vec_capacity};
ghost use Rattle.czi_format.specs.Layout.{Place};
ghost use Rattle.czi_format.specs.Space.{without, with_all_freed, deleted_after};
ghost use Rattle.czi_format.specs.Span.{span_le, sorted, IsWhole, LiesInOne};
ghost use Rattle.czi_image.specs.Holds.{att_item_place, tile_place};
ghost use Rattle.czi_machine.specs.Places.{can_be_used};
ghost use Rattle.czi_num.specs.Span.{span_of};
ghost use Rattle.czi_space.specs.State.{AreExtents, Has};
ghost use Rattle.czi_plan.specs.Geometry.{AreFreed, AreUsed};
ghost use Rattle.czi_plan.specs.Plan.{dead_of, left_directory, usable_of};

use crate::spare::{put, put_all};
use czi_image::{AttItem, DirItem, DirectoryChange, Tile};
use czi_num::Span;
use czi_space::Map;
use czi_spans::sort_spans;

/// An item that a directory lists.
pub trait Listed {
    /// Where it lies, and whether the walk stands there.
    ghost place: { Self → Place };

    /// The extent of its segment.
    fn span(&self) -> Span
        ensures { span_of result ≡ (place self.now).span };

    /// Whether the walk stands on it.
    fn is_walked(&self) -> bool
        ensures { result ≡ (place self.now).walked };
}

impl Listed for Tile {
    ghost place = { tile_place };

    fn span(&self) -> Span {
        self.span
    }

    fn is_walked(&self) -> bool {
        self.walked
    }
}

impl Listed for AttItem {
    ghost place = { att_item_place };

    fn span(&self) -> Span {
        self.span
    }

    fn is_walked(&self) -> bool {
        self.walked
    }
}

/// Whether a span can be used again: the walk stands on it, and it begins and ends at multiples of 32.
pub fn is_usable(span: &Span, walked: bool) -> bool
    ensures { result ≡ can_be_used (record { span = span_of span.now; walked = walked }) }
{
    walked && span.at % 32 == 0 && span.len % 32 == 0
}

/// Frees a span, which can be used again or not.
pub fn release(span: &Span, walked: bool, freed: &mut Vec<Span>, dead: &mut Vec<Span>)
    requires freed_room { vec_len freed.old < vec_capacity freed.old }
    requires dead_room { vec_len dead.old < vec_capacity dead.old }
    ensures freed { map span_of freed.new.items ≡ map span_of freed.old.items ++ usable_of (record { span = span_of span.now; walked = walked } ∷ []) }
    ensures dead { map span_of dead.new.items ≡ map span_of dead.old.items ++ dead_of (record { span = span_of span.now; walked = walked } ∷ []) }
    ensures freed_len { vec_len freed.new ≤ vec_len freed.old + 1 }
    ensures dead_len { vec_len dead.new ≤ vec_len dead.old + 1 }
    ensures freed_capacity { vec_capacity freed.old ≤ vec_capacity freed.new }
    ensures dead_capacity { vec_capacity dead.old ≤ vec_capacity dead.new }
{
    if is_usable(span, walked) {
        put(freed, *span);
    } else {
        put(dead, *span);
    }
}

/// Frees items that leave.
fn release_items<I: Listed>(items: &[I], freed: &mut Vec<Span>, dead: &mut Vec<Span>)
    requires freed_room { vec_len freed.old + length items.now ≤ vec_capacity freed.old }
    requires dead_room { vec_len dead.old + length items.now ≤ vec_capacity dead.old }
    ensures freed { map span_of freed.new.items ≡ map span_of freed.old.items ++ usable_of (map I.place items.now) }
    ensures dead { map span_of dead.new.items ≡ map span_of dead.old.items ++ dead_of (map I.place items.now) }
    ensures freed_len { vec_len freed.new ≤ vec_len freed.old + length items.now }
    ensures dead_len { vec_len dead.new ≤ vec_len dead.old + length items.now }
    ensures freed_capacity { vec_capacity freed.old ≤ vec_capacity freed.new }
    ensures dead_capacity { vec_capacity dead.old ≤ vec_capacity dead.new }
{
    for item in items {
        release(&item.span(), item.is_walked(), freed, dead);
    }
}

/// Frees a directory for which there is a new one.
fn release_directory(
    change: &DirectoryChange,
    directory: &Option<DirItem>,
    freed: &mut Vec<Span>,
    dead: &mut Vec<Span>,
)
    requires freed_room { vec_len freed.old < vec_capacity freed.old }
    requires dead_room { vec_len dead.old < vec_capacity dead.old }
    ensures freed { map span_of freed.new.items ≡ map span_of freed.old.items ++ usable_of (left_directory change.now directory.now) }
    ensures dead { map span_of dead.new.items ≡ map span_of dead.old.items ++ dead_of (left_directory change.now directory.now) }
    ensures freed_capacity { vec_capacity freed.old ≤ vec_capacity freed.new }
    ensures dead_capacity { vec_capacity dead.old ≤ vec_capacity dead.new }
{
    if let (DirectoryChange::New(_), Some(old)) = (change, directory) {
        release(&old.span, old.walked, freed, dead);
    }
}

/// Frees items that leave, which are held, and a directory for which there is a new one.
pub fn release_left<I: Listed>(
    leaving: &[I],
    change: &DirectoryChange,
    directory: &Option<DirItem>,
    held: &mut Vec<Span>,
    freed: &mut Vec<Span>,
    dead: &mut Vec<Span>,
)
    requires no_held { held.old.items ≡ [] }
    requires no_freed { freed.old.items ≡ [] }
    requires no_dead { dead.old.items ≡ [] }
    requires held_room { length leaving.now ≤ vec_capacity held.old }
    requires freed_room { length leaving.now + 1 ≤ vec_capacity freed.old }
    requires dead_room { length leaving.now + 1 ≤ vec_capacity dead.old }
    ensures held { map span_of held.new.items ≡ usable_of (map I.place leaving.now) }
    ensures freed { map span_of freed.new.items ≡ sorted span_le (usable_of (map I.place leaving.now ++ left_directory change.now directory.now)) }
    ensures dead { map span_of dead.new.items ≡ dead_of (map I.place leaving.now ++ left_directory change.now directory.now) }
    ensures held_capacity { vec_capacity held.old ≤ vec_capacity held.new }
    ensures freed_capacity { vec_capacity freed.old ≤ vec_capacity freed.new }
    ensures dead_capacity { vec_capacity dead.old ≤ vec_capacity dead.new }
{
    release_items(leaving, held, dead);
    put_all(freed, held);
    release_directory(change, directory, freed, dead);
    sort_spans(freed);
}

/// Takes a used span out of a map. One past its length was never in it.
fn take_used(span: &Span, space: &mut Map)
    requires rise { AreExtents 0 space.old.length space.old.extents }
    requires whole { IsWhole (span_of span.now) }
    requires lies { LiesInOne (span_of span.now) space.old.extents ⊎ (space.old.length ≤ span.now.at) }
    requires spare { 2 ≤ space.old.spare }
    ensures map { Has space.new (without (span_of span.now ∷ []) space.old.extents) space.old.held space.old.length }
    ensures rise { AreExtents 0 space.old.length (without (span_of span.now ∷ []) space.old.extents) }
    ensures spare { space.old.spare ≤ space.new.spare + 2 }
{
    if span.at < space.length() {
        space.take(span);
    }
}

/// Takes used spans out of a map.
fn take_all(used: &[Span], space: &mut Map)
    requires rise { AreExtents 0 space.old.length space.old.extents }
    requires used { AreUsed space.old.length (map span_of used.now) space.old.extents }
    requires spare { 2 * length used.now ≤ space.old.spare }
    ensures extents { space.new.extents ≡ without (map span_of used.now) space.old.extents }
    ensures held { space.new.held ≡ space.old.held }
    ensures length { space.new.length ≡ space.old.length }
    ensures spare { space.old.spare ≤ space.new.spare + 2 * length used.now }
{
    for span in used {
        take_used(span, space);
    }
}

/// Frees spans of a map one after another.
fn free_all(freed: &[Span], space: &mut Map)
    requires freed { AreFreed space.old.length (map span_of freed.now) space.old.extents }
    requires spare { 2 * length freed.now ≤ space.old.spare }
    ensures map { Has space.new (with_all_freed (map span_of freed.now) space.old.extents) space.old.held space.old.length }
    ensures spare { space.old.spare ≤ space.new.spare + 2 * length freed.now }
{
    for span in freed {
        space.free(span);
    }
}

/// Makes the map of an image that of the image after a plan: what was used is taken out of the extents, what was freed,
/// which is in order of place, is put into them, and the length doesn't fall. It takes no memory.
pub fn update_map(space: &mut Map, used: &[Span], freed: &[Span], image_len: u64)
    requires rise { AreExtents 0 space.old.length space.old.extents }
    requires used { AreUsed space.old.length (map span_of used.now) space.old.extents }
    requires freed { AreFreed space.old.length (map span_of freed.now) (without (map span_of used.now) space.old.extents) }
    requires in_order { sorted span_le (map span_of freed.now) ≡ map span_of freed.now }
    requires longer { space.old.length ≤ image_len }
    requires spare { 2 * length used.now + 2 * length freed.now ≤ space.old.spare }
    ensures map { Has space.new (deleted_after (map span_of used.now) (map span_of freed.now) space.old.extents) space.old.held image_len }
    ensures spare { space.old.spare ≤ space.new.spare + (2 * length used.now + 2 * length freed.now) }
{
    take_all(used, space);
    free_all(freed, space);
    space.set_length(image_len);
}
