//! What undoes an edit: the items that leave, as segments that an undo may bring back.

ghost use Rattle.std.specs.Prelude.{◌≡◌, IfOk};
ghost use Rattle.czi_undo.specs.Parts.{LainPart};
ghost use Rattle.czi_undo.specs.Stands.{IsAttachment, IsMetadata, IsPart, IsTile};
ghost use Rattle.czi_engine.specs.Inverting.{InverseUndoes, PartUndoes, lain_attachment, lain_metadata, lain_tile, metadata_back};
ghost use Rattle.czi_engine.specs.Tasks.{IsAllowed};

use crate::planning::Task;
use czi_doc::EntryInfo;
use czi_format::CONTENTS_PLACE;
use czi_image::{AttItem, Index, MetaItem, Tile};
use czi_seg::write_header;
use czi_undo::{HeldSegment, Inverse, Part};
use std::alloc::{AllocError, Global};

/// The segment of a subblock that leaves.
fn held_tile(tile: &Tile) -> HeldSegment
    ensures { IsTile tile.now.info result (lain_tile tile.now) }
{
    HeldSegment {
        span: tile.span,
        head: write_header(&tile.head),
        walked: tile.walked,
        begin: tile.begin,
        sizes: [tile.meta, tile.pixels, tile.tail],
    }
}

/// What brings a subblock back: what its entry says, and its segment.
fn tile_back(tile: &Tile) -> Result<(EntryInfo, HeldSegment), AllocError>
    ensures { IfOk result (λ r. IsTile r.0 r.1 (lain_tile tile.now)) }
{
    let info = tile.info.try_copy()?;
    Ok((info, held_tile(tile)))
}

/// The segment of an attachment that leaves.
fn held_attachment(item: &AttItem) -> HeldSegment
    ensures { IsAttachment item.now.info result (lain_attachment item.now) }
{
    HeldSegment {
        span: item.span,
        head: write_header(&item.head),
        walked: item.walked,
        begin: item.span.at + CONTENTS_PLACE,
        sizes: [item.size, 0, 0],
    }
}

/// The segment of metadata that leave.
fn held_metadata(item: &MetaItem) -> HeldSegment
    ensures { IsMetadata result (lain_metadata item.now) }
{
    HeldSegment {
        span: item.span,
        head: write_header(&item.head),
        walked: item.walked,
        begin: item.span.at + CONTENTS_PLACE,
        sizes: [item.xml, item.tail, 0],
    }
}

/// What brings back the metadata that there are, if there are any.
fn metadata_back(index: &Index) -> Part
    ensures { (q : LainPart) × IsPart result q × (q ≡ metadata_back index.now.metadata) }
{
    match &index.metadata {
        Some(item) => Part::PutMeta {
            held: held_metadata(item),
        },
        None => Part::NoMeta,
    }
}

impl<'a> Task<'a> {
    /// The part that undoes it.
    fn part(self, index: &Index) -> Result<Part, AllocError>
        requires allowed { IsAllowed self index.now }
        ensures { IfOk result (PartUndoes self.entry index.now) }
    {
        match self {
            Task::Add(_) => Ok(Part::DropSub {
                place: index.tiles.len() as u32,
            }),
            Task::Replace(i, _) => {
                let (info, held) = tile_back(&index.tiles[i])?;
                let place = i as u32;
                Ok(Part::PutSub { place, info, held })
            }
            Task::Remove(i) => {
                let (info, held) = tile_back(&index.tiles[i])?;
                let place = i as u32;
                Ok(Part::InsertSub { place, info, held })
            }
            Task::Attach(_, _) => Ok(Part::DropAtt {
                place: index.attachments.len() as u32,
            }),
            Task::Reattach(i, _, _) => {
                let item = &index.attachments[i];
                Ok(Part::PutAtt {
                    place: i as u32,
                    info: item.info,
                    held: held_attachment(item),
                })
            }
            Task::Detach(i) => {
                let item = &index.attachments[i];
                Ok(Part::InsertAtt {
                    place: i as u32,
                    info: item.info,
                    held: held_attachment(item),
                })
            }
            Task::SetMeta(_, _) => Ok(metadata_back(index)),
        }
    }

    /// What undoes it.
    pub(crate) fn inverse(self, alloc: Global, index: &Index) -> Result<Inverse, AllocError>
        requires allowed { IsAllowed self index.now }
        ensures { IfOk result (InverseUndoes self.entry index.now) }
    {
        Inverse::single(alloc, self.part(index)?)
    }
}
